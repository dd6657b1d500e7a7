//! What the replies to a script come to, line by line.

ghost use Rattle.std.specs.Prelude.{◌≡◌, ◌+◌, if◌then◌else◌, codes};
ghost use Rattle.std.specs.List.{before_first, after_first};
ghost use Rattle.std.specs.Str.Lines.{lines};
ghost use Rattle.mm_sample.specs.Counts.{is_space, begins_with, begins_reply, number_in, number_behind, tells_found, held, commands_in, accepted_in, refused_in, answers_in, nodes_in, summary_of};

use crate::summary::Summary;
use sha2::{Digest, Sha256};

/// The counts over the lines so far.
#[derive(Drop)]
struct Counts {
    commands: u64,
    accepted: u64,
    refused: u64,
    answers: u64,
    nodes: u64,
}

/// The number that a text is, 0 where it is none.
fn number_in(text: &str) -> u64
    ensures { result ≡ number_in text.now }
{
    text.parse::<u64>().unwrap_or(0)
}

/// The first word of a line, and what stands behind the space there.
fn split_word(line: &str) -> (&str, &str)
    ensures word { result.0.now ≡ before_first is_space line.now }
    ensures behind { result.1.now ≡ after_first is_space line.now }
{
    match line.split_once(' ') {
        None => (line, ""),
        Some(parts) => parts,
    }
}

impl Counts {
    /// Counts a line of the replies.
    fn count(&mut self, line: &str)
        ensures commands { self.new.commands ≡ (if begins_reply line.now then held (self.old.commands + 1) else self.old.commands) }
        ensures accepted { self.new.accepted ≡ (if begins_with (codes "ok") line.now then held (self.old.accepted + 1) else self.old.accepted) }
        ensures refused { self.new.refused ≡ (if begins_with (codes "no") line.now then held (self.old.refused + 1) else self.old.refused) }
        ensures answers { self.new.answers ≡ (if tells_found line.now then held (self.old.answers + number_behind line.now) else self.old.answers) }
        ensures nodes { self.new.nodes ≡ (if begins_with (codes "sound") line.now then number_behind line.now else self.old.nodes) }
    {
        let (word, behind) = split_word(line);
        match word {
            "ok" => self.accepted = self.accepted.saturating_add(1),
            "no" => self.refused = self.refused.saturating_add(1),
            "hits" | "fragments" => self.answers = self.answers.saturating_add(number_in(behind)),
            "sound" => self.nodes = number_in(behind),
            "unsound" => {}
            _ => return,
        }
        self.commands = self.commands.saturating_add(1);
    }
}

/// The counts over all lines of the replies.
fn counted(replies: &str) -> Counts
    ensures commands { result.commands ≡ commands_in (lines replies.now) }
    ensures accepted { result.accepted ≡ accepted_in (lines replies.now) }
    ensures refused { result.refused ≡ refused_in (lines replies.now) }
    ensures answers { result.answers ≡ answers_in (lines replies.now) }
    ensures nodes { result.nodes ≡ nodes_in (lines replies.now) }
{
    let mut counts = Counts {
        commands: 0,
        accepted: 0,
        refused: 0,
        answers: 0,
        nodes: 0,
    };
    for line in replies.lines() {
        counts.count(line);
    }
    counts
}

/// What the replies to a script come to; `weight` is that of the image that the script left, in bytes.
#[tactic(auto, unfolding(crate::specs::Counts::summary_of))]
pub fn summarize(replies: &str, weight: u64) -> Summary
    ensures { result ≡ summary_of replies.now weight }
{
    let Counts {
        commands,
        accepted,
        refused,
        answers,
        nodes,
    } = counted(replies);
    Summary {
        commands,
        accepted,
        refused,
        answers,
        nodes,
        weight,
        digest: Sha256::digest(replies.as_bytes()),
    }
}
