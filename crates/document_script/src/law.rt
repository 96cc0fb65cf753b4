//! A line spells at most one command.
ghost use Rattle.std.specs.Prelude.{ℕ};
ghost use Rattle.filter_text.specs.OneText.{HasOneValue};
ghost use Rattle.document_script.specs.Command.{IsCommandOf};

/// No line spells two commands in documents of one version.
pub fn one_command()
    ensures { (version : ℕ) → HasOneValue (IsCommandOf version) }
{}
