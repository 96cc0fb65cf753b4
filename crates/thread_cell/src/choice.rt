//! What comes of a match ahead for the publication of a step.
ghost use Rattle.std.specs.Prelude.{◌≡◌, IfSome};
ghost use Rattle.base.specs.Sets.{Has};
ghost use Rattle.server_core.specs.Clients.{client_numbers};
ghost use Rattle.thread_versions.specs.declared.publisher.Publisher.{Publisher as PublisherParts};
ghost use Rattle.thread_cell.specs.Cell.{IsInstalledBy};
ghost use Rattle.thread_cell.specs.Ahead.{IsChoiceNextBy, IsChoiceOfBy, IsJudged};

use crate::held::ServerInHand;
use crate::routing::publication_in;
use crate::turned::Turned;
use match_routes::Route;
use server_core::Core;
use server_message::Load;
use thread_versions::Ahead;

/// What comes of a match ahead.
#[derive(Drop)]
pub(crate) enum Choice<'a> {
    /// The match is of other numbers.
    Other,
    /// It had not seen all that is installed.
    Outdated,
    /// Its route is that of what is installed.
    Agreed(&'a Route),
}

impl<'a> Choice<'a> {
    ghost use Rattle.std.specs.Prelude.{◌≡◌, IfSome};
    ghost use Rattle.thread_cell.specs.Ahead.{turned_by};

    /// The route that is known by it, if one is.
    pub(crate) fn route(&self) -> Option<&'a Route>
        ensures { IfSome result (λ route. self.now ≡ Choice.Agreed route) }
    {
        match self {
            Choice::Agreed(route) => Some(route),
            _ => None,
        }
    }

    /// What a step is that is made by it.
    pub(crate) fn turned(&self) -> Turned
        ensures { result ≡ turned_by self.now }
    {
        match self {
            Choice::Outdated => Turned::Stale,
            _ => Turned::Made,
        }
    }
}

/// A publication that was matched ahead, and whether the match had seen all that is installed.
#[derive(Drop)]
pub(crate) struct Matched<'a> {
    pub(crate) ahead: &'a Ahead,
    pub(crate) agreed: bool,
}

impl<'a> Matched<'a> {
    ghost use Rattle.std.specs.Prelude.{◌<◌, length};
    ghost use Rattle.net_tables.specs.Known.{known_publications};
    ghost use Rattle.thread_versions.specs.declared.publisher.Publisher.{Publisher as PublisherParts};
    ghost use Rattle.thread_cell.specs.Ahead.{IsChoiceIn, IsJudged};

    /// What comes of it for the publication with a number.
    fn choose(&self, core: &Core<'_>, number: u32) -> Choice<'a>
        requires { number < length (known_publications 1 core.now.net.clients) }
        ensures { (publisher : PublisherParts) → IsJudged publisher self.now → IsChoiceIn core.now.net publisher self.now.ahead.now number result }
    {
        if !self.ahead.is_of(&core.tables().matched(number)) {
            return Choice::Other;
        }
        if self.agreed {
            Choice::Agreed(self.ahead.route())
        } else {
            Choice::Outdated
        }
    }
}

/// For the next command of a client that lives here.
pub(crate) fn choose_next<'a>(
    held: &ServerInHand<'_>,
    matched: Option<Matched<'a>>,
    client: u32,
) -> Choice<'a>
    requires lives { Has client (client_numbers held.now.core.clients) }
    requires installed { IsInstalledBy held.now.publisher held.now.core }
    requires judged { IfSome matched (IsJudged held.now.publisher) }
    ensures { IsChoiceNextBy held.now.core held.now.publisher matched.entry client result }
{
    let Some(matched) = matched else {
        return Choice::Other;
    };
    match held.core.next_publication(client) {
        Some(number) => matched.choose(&held.core, number),
        None => Choice::Other,
    }
}

/// For what a message carries.
pub(crate) fn choose_of<'a>(
    core: &Core<'_>,
    matched: Option<Matched<'a>>,
    load: &Load,
) -> Choice<'a>
    ensures { (publisher : PublisherParts) → IsInstalledBy publisher core.now → IfSome matched.entry (IsJudged publisher)
        → IsChoiceOfBy core.now publisher matched.entry load.now result }
{
    let Some(matched) = matched else {
        return Choice::Other;
    };
    match publication_in(core.tables(), load) {
        Some(number) => matched.choose(core, number),
        None => Choice::Other,
    }
}
