//! The options of a command line.
ghost use Rattle.std.specs.Prelude.{◌≡◌, List, map, string_bytes, option_map, nat_le};
ghost use Rattle.std.specs.Iterator.{YieldsFirstBy, item_count};
ghost use Rattle.std.specs.List.{list_any, list_all};
ghost use Rattle.std.specs.Str.{bytes_eq};
ghost use Rattle.deneva_top.specs.Options.{Given, are_options, options_of, pairs_of, times, value_at};

use std::marker::Model;

/// The names that are left, each with its value: words two by two.
#[derive(Drop)]
struct Pairs<'a>(&'a [String]);

impl<'a> Iterator for Pairs<'a> {
    type Item = (&'a str, &'a str);

    ghost next_gives = { YieldsFirstBy (λ p. (p.0.now, p.1.now)) (λ s. pairs_of (map string_bytes s.0.now)) };

    ghost remaining = { item_count (λ s. pairs_of (map string_bytes s.0.now)) };

    fn next(&mut self) -> Option<(&'a str, &'a str)> {
        let [name, value, more @ ..] = self.0 else {
            return None;
        };
        self.0 = more;
        Some((name.as_str(), value.as_str()))
    }
}

fn is_among(name: &str, names: &[&str]) -> bool
    ensures { result ≡ list_any (bytes_eq name.now) (map (λ n. n.now) names.now) }
{
    names.iter().any(|known| name == *known)
}

/// How often a name is given.
fn times(words: &[String], name: &str) -> usize
    ensures { result ≡ times name.now (pairs_of (map string_bytes words.now)) }
{
    Pairs(words).filter(|(given, _)| *given == name).count()
}

fn are_known(words: &[String], names: &[&str]) -> bool
    ensures { result ≡ list_all (λ g. list_any (bytes_eq g.0) (map (λ n. n.now) names.now)) (pairs_of (map string_bytes words.now)) }
{
    Pairs(words).all(|(name, _)| is_among(name, names))
}

fn are_single(words: &[String], names: &[&str]) -> bool
    ensures { result ≡ list_all (λ name. nat_le (times name (pairs_of (map string_bytes words.now))) 1) (map (λ n. n.now) names.now) }
{
    names.iter().all(|name| times(words, name) <= 1)
}

/// Options as they are given, of names that are known and none of them twice.
#[derive(Debug, Drop)]
pub struct Options<'a> {
    words: &'a [String],
}

impl<'a> Model for Options<'a> {
    ghost use Rattle.std.specs.Prelude.{List, map, string_bytes};
    ghost use Rattle.deneva_top.specs.Options.{Given, pairs_of};

    ghost Value = { List Given };

    ghost view = { λ a. pairs_of (map string_bytes a.words.now) };
}

impl<'a> Options<'a> {
    /// The options that words give, where they are options of these names.
    pub fn of(words: &'a [String], names: &[&str]) -> Option<Options<'a>>
        ensures { result ≡ options_of (map (λ n. n.now) names.now) (map string_bytes words.now) }
    {
        if words.len() % 2 == 0 && are_known(words, names) && are_single(words, names) {
            Some(Options { words })
        } else {
            None
        }
    }

    /// The value of an option, where it is given.
    pub fn value(&self, name: &str) -> Option<&'a str>
        ensures { option_map (λ v. v.now) result ≡ value_at name.now self.now }
    {
        Pairs(self.words)
            .find(|(given, _)| *given == name)
            .map(|(_, value)| value)
    }
}
