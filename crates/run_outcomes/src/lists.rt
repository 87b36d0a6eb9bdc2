//! The lists of an outcome, one transaction after another.
ghost use Rattle.std.specs.Prelude.{◌≡◌, List, map, IfOk};
ghost use Rattle.std.specs.List.{All, IsDistinct, flat_map};
ghost use Rattle.deneva_base.specs.Keys.{id_eq};
ghost use Rattle.server_core.specs.Aborts as aborts;
ghost use Rattle.server_core.specs.Lines.{sort_lines};
ghost use Rattle.server_core.specs.declared.messages.Entry as messages;
ghost use Rattle.run_outcomes.specs.ByTransaction.{lines_for, giveups_for};
ghost use Rattle.server_core.specs.Roles.{setting_of};
ghost use Rattle.run_outcomes.specs.Stories.{Tells};

use crate::stories::Story;
use deneva_base::NoMemory;
use server_core::{AbortList, DecidedList, GiveupList, Role};

/// The lines of the decided transactions.
pub(crate) fn lines_of(role: Role<'_>, stories: &[Story<'_>]) -> Result<DecidedList, NoMemory>
    ensures { IfOk result (λ list. (H : List messages.Entry) → All (Tells role.entry H) stories.now → list ≡ flat_map (lines_for (setting_of role.entry) H) (map (λ t. t.id) stories.now)) }
{
    let mut list = DecidedList::new(role.alloc);
    for story in stories {
        if let Some(line) = story.line(role)? {
            list.push(line)?;
        }
    }
    Ok(list)
}

/// The transactions that were given up.
pub(crate) fn giveups_of(role: Role<'_>, stories: &[Story<'_>]) -> Result<GiveupList, NoMemory>
    ensures { IfOk result (λ list. (H : List messages.Entry) → All (Tells role.entry H) stories.now → list ≡ flat_map (giveups_for (setting_of role.entry) H) (map (λ t. t.id) stories.now)) }
{
    let mut list = GiveupList::new(role.alloc);
    for story in stories {
        if let Some(giveup) = story.giveup(role)? {
            list.push(giveup)?;
        }
    }
    Ok(list)
}

/// The lines of the aborted attempts.
pub(crate) fn aborts_of(role: Role<'_>, stories: &[Story<'_>]) -> Result<AbortList, NoMemory>
    ensures { IfOk result (λ list. (H : List messages.Entry) → All (Tells role.entry H) stories.now → list ≡ flat_map (λ x. aborts.turns (setting_of role.entry) H x role.entry.config.attempts) (map (λ t. t.id) stories.now)) }
{
    let mut list = AbortList::new(role.alloc);
    for story in stories {
        story.push_aborts(role, &mut list)?;
    }
    Ok(list)
}

/// The lines, of which no two are of one transaction, in the order of their numbers.
pub(crate) fn in_number_order(lines: DecidedList) -> Result<DecidedList, NoMemory>
    requires { IsDistinct id_eq (map (λ l. l.number.id) lines) }
    ensures { IfOk result (λ sorted. sorted ≡ sort_lines lines) }
{
    let mut lines = lines.into_vec();
    lines.sort_by_key(|line| line.number)?;
    Ok(DecidedList::of(lines))
}
