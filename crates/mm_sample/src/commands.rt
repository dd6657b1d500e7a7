//! The commands of a script, one at a time.

ghost use Rattle.std.specs.Prelude.{◌≡◌, ◌<◌, ◌++◌, IfOk, OnOk, string_bytes};
ghost use Rattle.mm_sample.specs.Draws.{after};
ghost use Rattle.mm_sample.specs.Script.{section, sections, load, change_of, words_of, edit, target, change, change_end, search_name, search_line};

use crate::draws::Draws;
use std::alloc::{AllocError, Global};

/// How many documents a script loads.
pub const DOCUMENTS: u64 = 200;
/// How many sections each of them has.
const SECTIONS: u64 = 8;
/// A word is `w` and a number below this.
const WORDS: u64 = 64;

/// How a round edits the documents.
#[derive(Drop)]
enum Change {
    InsertAfter,
    Delete,
    Replace,
    InsertFirst,
}

#[tactic(auto, unfolding(crate::specs::Draws::after, crate::specs::Script::section))]
fn section_text(alloc: Global, draws: &mut Draws) -> Result<String, AllocError>
    ensures text { IfOk result (λ text. string_bytes text ≡ section draws.old.number) }
    ensures draws { draws.new.number ≡ after 4 draws.old.number }
{
    let title = draws.draw(WORDS);
    let first = draws.draw(WORDS);
    let second = draws.draw(WORDS);
    let third = draws.draw(WORDS);
    let section = format!(in alloc;
        "<sec><t>w{title}</t><p>w{first} w{second} w{third}</p></sec>"
    )?;
    Ok(section)
}

#[tactic(auto, unfolding(crate::specs::Draws::after))]
fn sections_text(alloc: Global, draws: &mut Draws) -> Result<String, AllocError>
    ensures text { IfOk result (λ text. string_bytes text ≡ sections 8 draws.old.number) }
    ensures draws { OnOk result (draws.new.number ≡ after 32 draws.old.number) }
{
    let mut text = String::new(alloc);
    for done in 0..SECTIONS {
        let section = section_text(alloc, draws)?;
        text.push_str(section.as_str())?;
    }
    Ok(text)
}

/// The load of one document.
#[tactic(auto, unfolding(crate::specs::Script::load))]
pub fn push_load(
    alloc: Global,
    script: &mut Vec<u8>,
    draws: &mut Draws,
    document: u64,
) -> Result<(), AllocError>
    ensures text { OnOk result (script.new.items ≡ script.old.items ++ load document draws.old.number) }
    ensures draws { OnOk result (draws.new.number ≡ after 32 draws.old.number) }
{
    let sections = sections_text(alloc, draws)?;
    let load = format!(in alloc; "load\n<doc id=\"d{document}\">{sections}</doc>\n.\n")?;
    script.extend_from_slice(load.as_bytes())
}

fn chosen_change(number: u64) -> Change
    requires { number < 4 }
    ensures { result ≡ change_of number }
{
    match number {
        0 => Change::InsertAfter,
        1 => Change::Delete,
        2 => Change::Replace,
        _ => Change::InsertFirst,
    }
}

#[tactic(auto, unfolding(crate::specs::Draws::after))]
fn edit_text(
    alloc: Global,
    draws: &mut Draws,
    change: &Change,
    label: &str,
) -> Result<String, AllocError>
    ensures text { IfOk result (λ text. string_bytes text ≡ edit change.now label.now draws.old.number) }
    ensures draws { OnOk result (draws.new.number ≡ after (words_of change.now) draws.old.number) }
{
    match change {
        Change::InsertAfter => {
            let word = draws.draw(WORDS);
            format!(in alloc; "insert after {label}\n<sec><t>w{word}</t></sec>\n.\n")
        }
        Change::Delete => format!(in alloc; "delete {label}\n"),
        Change::Replace => {
            let first = draws.draw(WORDS);
            let second = draws.draw(WORDS);
            format!(in alloc; "replace {label}\n<sec><p>w{first} w{second}</p></sec>\n.\n")
        }
        Change::InsertFirst => {
            let word = draws.draw(WORDS);
            format!(in alloc; "insert first {label}\n<n>w{word}</n>\n.\n")
        }
    }
}

/// The edit of a round.
#[tactic(auto, unfolding(crate::specs::Draws::after, crate::specs::Script::change, crate::specs::Script::change_end))]
pub fn push_change(alloc: Global, script: &mut Vec<u8>, draws: &mut Draws) -> Result<(), AllocError>
    ensures text { OnOk result (script.new.items ≡ script.old.items ++ change draws.old.number) }
    ensures draws { OnOk result (draws.new.number ≡ change_end draws.old.number) }
{
    let change = chosen_change(draws.draw(4));
    let document = 2 * draws.draw(DOCUMENTS) + 1;
    let section = 2 * draws.draw(SECTIONS) + 1;
    let label = format!(in alloc; "{document}.{section}")?;
    let edit = edit_text(alloc, draws, &change, label.as_str())?;
    script.extend_from_slice(edit.as_bytes())
}

fn chosen_search(number: u64) -> &'static str
    requires { number < 4 }
    ensures { result.now ≡ search_name number }
{
    match number {
        0 => "slca",
        1 => "elca",
        2 => "maxmatch",
        _ => "maxmatch-elca",
    }
}

/// The search of a round.
#[tactic(auto, unfolding(crate::specs::Draws::after, crate::specs::Script::search_line))]
pub fn push_search(alloc: Global, script: &mut Vec<u8>, draws: &mut Draws) -> Result<(), AllocError>
    ensures text { OnOk result (script.new.items ≡ script.old.items ++ search_line draws.old.number) }
    ensures draws { OnOk result (draws.new.number ≡ after 3 draws.old.number) }
{
    let search = chosen_search(draws.draw(4));
    let first = draws.draw(WORDS);
    let second = draws.draw(WORDS);
    let line = format!(in alloc; "{search} w{first} w{second}\n")?;
    script.extend_from_slice(line.as_bytes())
}
