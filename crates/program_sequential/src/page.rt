//! Answers the words that ask for a page on the program itself.
ghost use Rattle.std.specs.Prelude.{◌≡◌, [], IfOk};
ghost use Rattle.program_help.specs.Pages.{page_text};

use crate::printed::Printed;
use base::NoMemory;
use program_help::Page;
use std::alloc::Global;

/// A page.
pub fn of_page(alloc: Global, page: Page) -> Result<Printed, NoMemory>
    ensures { IfOk result (λ p. (p.text ≡ page_text page) × (p.journal ≡ [])) }
{
    let text = page.text().to_vec(alloc)?;
    Printed::alone(alloc, text)
}
