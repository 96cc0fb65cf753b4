//! The wire text of a command's filter, advertisement or notification behind its first word spells that command.
ghost use Rattle.std.specs.Prelude.{ℕ};
ghost use Rattle.filter_text.specs.declared.command.Command.{Command as Spelled};
ghost use Rattle.document_script.specs.Command.{IsCommandOf};
ghost use Rattle.document_format.specs.CommandText.{IsCommandIn, command_text};

/// In documents of each version, a first word, a space and the wire text of a filter, an advertisement or a notice of that
/// version are a line that spells the command of the word with it.
pub fn text_is_command()
    ensures { (version : ℕ) (command : Spelled) → IsCommandIn version command → IsCommandOf version (command_text command) command }
{}
