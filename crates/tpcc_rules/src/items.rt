//! The items of a load.
ghost use Rattle.std.specs.Prelude.{◌≡◌, ◌++◌, ◌∷◌, [], ◌<◌, ◌^◌, ◌&&◌, true, length, option_map, IfOk, OnOk, OnErr};
ghost use Rattle.tpcc_rules.specs.Items.{have_own_numbers, has_item, item_numbered, numbers_rise};

use crate::programs::Item;
use deneva_base::{Copied, Items, NoMemory};
use std::alloc::Global;
use std::marker::Model;

/// The items that every partition knows, which contracts see as their list. Where their numbers strictly rise, as a
/// file that is sorted has them, an item is found by halves, and else by a scan.
#[derive(Debug, Drop)]
pub struct ItemList {
    items: Items<Item>,
    /// Whether each item's number is below the next one's.
    rising: bool,
}

impl Model for ItemList {
    ghost use Rattle.std.specs.Prelude.{List, ◌≡◌};
    ghost use Rattle.tpcc_rules.specs.Items.{numbers_rise};
    ghost use Rattle.tpcc_rules.specs.declared.programs.Item.{Item};

    ghost Value = { List Item };

    ghost view = { λ a. a.items };

    ghost invariant = { λ a. a.rising ≡ numbers_rise a.items };
}

/// Whether a number is above that of the last item, where there is one.
fn is_above_last(items: &[Item], number: u32) -> bool
    ensures { (x : Item) → x.number ≡ number → (numbers_rise items.now && result) ≡ numbers_rise (items.now ++ x ∷ []) }
{
    match items.last() {
        Some(last) => last.number < number,
        None => true,
    }
}

/// The item of a number, found by halves.
fn found_by_halves(items: &[Item], number: u32) -> Option<&Item>
    requires { numbers_rise items.now ≡ true }
    ensures { option_map (λ i. i.now) result ≡ item_numbered items.now number }
{
    match items.binary_search_by_key(&number, |item| item.number) {
        Ok(index) => Some(&items[index]),
        Err(_) => None,
    }
}

/// The item of a number, the first where two have one, found by a scan.
fn found_by_scan(items: &[Item], number: u32) -> Option<&Item>
    ensures { option_map (λ i. i.now) result ≡ item_numbered items.now number }
{
    items.iter().find(|item| item.number == number)
}

fn has_number(items: &[Item], number: u32) -> bool
    ensures { result ≡ has_item items.now number }
{
    items.iter().any(|item| item.number == number)
}

/// Whether no two items have one number, found by comparing each with each.
fn are_apart(items: &[Item]) -> bool
    ensures { result ≡ have_own_numbers items.now }
{
    let mut rest = items;
    while let Some((first, more)) = rest.split_first() {
        if has_number(more, first.number) {
            return false;
        }
        rest = more;
    }
    true
}

impl ItemList {
    /// The empty list. It takes no memory yet.
    pub fn new(alloc: Global) -> ItemList
        ensures { result ≡ [] }
    {
        ItemList {
            items: Items::new(alloc),
            rising: true,
        }
    }

    /// The list of these items.
    pub fn copy_of(alloc: Global, items: &[Item]) -> Result<ItemList, NoMemory>
        ensures { IfOk result (λ list. list ≡ items.now) }
    {
        let mut list = ItemList::new(alloc);
        for item in items {
            list.push(*item)?;
        }
        Ok(list)
    }

    pub fn as_slice(&self) -> &[Item]
        ensures { result.now ≡ self.now }
    {
        self.items.as_slice()
    }

    pub fn len(&self) -> usize
        ensures len { result ≡ length self.now }
        ensures small { length self.now < 2 ^ 63 }
    {
        self.items.len()
    }

    /// Puts an item at the end.
    pub fn push(&mut self, item: Item) -> Result<(), NoMemory>
        ensures ok { OnOk result (self.new ≡ self.old ++ item ∷ []) }
        ensures err { OnErr result (self.new ≡ self.old) }
    {
        let rising = self.rising && is_above_last(self.items.as_slice(), item.number);
        self.items.push(item)?;
        self.rising = rising;
        Ok(())
    }

    /// The item of a number, the first where two have one.
    pub fn find(&self, number: u32) -> Option<&Item>
        ensures { option_map (λ i. i.now) result ≡ item_numbered self.now number }
    {
        let items = self.items.as_slice();
        if self.rising {
            found_by_halves(items, number)
        } else {
            found_by_scan(items, number)
        }
    }

    pub fn has(&self, number: u32) -> bool
        ensures { result ≡ has_item self.now number }
    {
        self.find(number).is_some()
    }

    /// Whether no two items have one number. It takes time by the square of their count where the numbers do not rise.
    pub fn has_own_numbers(&self) -> bool
        ensures { result ≡ have_own_numbers self.now }
    {
        self.rising || are_apart(self.items.as_slice())
    }
}

impl Copied for ItemList {
    fn copied(&self, alloc: Global) -> Result<ItemList, NoMemory> {
        let items = self.items.copy(alloc)?;
        Ok(ItemList {
            items,
            rising: self.rising,
        })
    }
}
