//! Which values hold: the last one of each option.

ghost use Rattle.std.specs.Prelude.{◌≡◌, option_map, IfSome, IsTrue, true, ◌≤◌, unsigned_abs, nat_le};
ghost use Rattle.std.specs.List.{list_all};
ghost use Rattle.cfg_text.specs.Holding as specs;
ghost use Rattle.cfg_text.specs.Holding.{first_line_of, suits};
ghost use Rattle.cfg_lines.specs.Items.{entry_fits};
ghost use Rattle.cfg_lines.specs.Table.{option_row};
ghost use Rattle.cfg_lines.specs.Values.{fits};
ghost use Rattle.cfg_lines.specs.declared.value.Value.TheVariants.{Amount};

use cfg_lines::item::{Entry, Item};
use cfg_lines::section::{Section, same_section};
use cfg_lines::table::{Key, fallback, same_key};
use cfg_lines::value::Value;

/// Whether a line sets this option of this section.
fn sets(section: &Section, key: Key, item: &Item) -> bool
    ensures { result ≡ specs.sets section.now key item.now }
{
    match item {
        Item::Holds(other, name, _) => same_section(section, other) && same_key(key, *name),
        _ => false,
    }
}

/// The last line that sets an option of a section.
pub fn last_set<'a>(entries: &'a [Entry], section: &Section, key: Key) -> Option<&'a Entry>
    ensures { option_map (λ entry. entry.now) result ≡ specs.last_set section.now key entries.now }
{
    let mut found = None;
    let mut rest = entries;
    while let [first, others @ ..] = rest {
        if sets(section, key, &first.item) {
            found = Some(first);
        }
        rest = others;
    }
    found
}

/// The first line of a section, or 0 where it isn't there.
pub fn section_line(entries: &[Entry], section: &Section) -> u64
    ensures { result ≡ first_line_of section.now entries.now }
{
    let mut rest = entries;
    while let [first, others @ ..] = rest {
        if let Item::Opens(other) = &first.item {
            if same_section(section, other) {
                return first.line;
            }
        }
        rest = others;
    }
    0
}

/// The number that holds for an option, in its units.
#[tactic(auto, unfolding(crate::specs::Holding::amount))]
pub fn amount(entries: &[Entry], section: &Section, key: Key) -> u64
    ensures { result ≡ specs.amount entries.now section.now key }
{
    match last_set(entries, section, key) {
        Some(entry) => match &entry.item {
            Item::Holds(_, _, Value::Amount(amount)) => *amount,
            _ => fallback(key),
        },
        None => fallback(key),
    }
}

/// The signed number that holds for an option: 0 where it isn't set.
#[tactic(auto, unfolding(crate::specs::Holding::signed))]
pub fn signed(entries: &[Entry], section: &Section, key: Key) -> i64
    ensures { result ≡ specs.signed entries.now section.now key }
{
    match last_set(entries, section, key) {
        Some(entry) => match &entry.item {
            Item::Holds(_, _, Value::Signed(value)) => *value,
            _ => 0,
        },
        None => 0,
    }
}

/// Whether an option of two words is set to the second.
#[tactic(auto, unfolding(crate::specs::Holding::flag))]
pub fn flag(entries: &[Entry], section: &Section, key: Key) -> bool
    ensures { result ≡ specs.flag entries.now section.now key }
{
    match last_set(entries, section, key) {
        Some(entry) => match &entry.item {
            Item::Holds(_, _, Value::Flag(flag)) => *flag,
            _ => false,
        },
        None => false,
    }
}
