//! What follows from the definitions.
ghost use Rattle.std.specs.Prelude.{◌≡◌, ℕ, List};
ghost use Rattle.mm_tree.specs.Trees.{Trees};
ghost use Rattle.mm_tree.specs.Numbering.{Labelled};
ghost use Rattle.mm_run.specs.declared.command.Command.{Command};
ghost use Rattle.mm_options.specs.declared.options.Options.{Options};
ghost use Rattle.mm_run.specs.Answers.{Replies};
ghost use Rattle.mm_run.specs.Settled.{IsTreeOrNone, IsLabelOrNone, HasReply, bytes_in, label_asked};

use mm_label::laws::one_text;
use mm_xml::laws::one_tree;

/// Under the same options, commands in a forest have at most one list of replies, and leave at most one forest.
pub fn one_reply()
    ensures { (options : Options) (forest : Trees Labelled) (commands : List Command) (replies replies' : List ℕ) (after after' : Trees Labelled)
        → Replies options forest commands replies after → Replies options forest commands replies' after' → (replies ≡ replies') × (after ≡ after') }
{
    one_tree();
    one_text();
}

/// In no forest a command is without a reply. It can be given where it is settled whether the payload
/// spells a tree and whether the word is a label's text, as the readers of both settle it.
pub fn some_reply()
    ensures never_without { (options : Options) (forest : Trees Labelled) (command : Command) → ¬ ¬ HasReply options forest command }
    ensures settled { (options : Options) (forest : Trees Labelled) (command : Command)
        → IsTreeOrNone (bytes_in command.payload) → IsLabelOrNone (label_asked command.form) → HasReply options forest command }
{}
