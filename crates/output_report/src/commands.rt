//! Counts the commands that clients have.
ghost use Rattle.std.specs.Prelude.{◌≡◌, ◌+◌, ◌≤◌};
ghost use Rattle.base.specs.Numbers.{sum_over};
ghost use Rattle.law_routing.specs.Clients.{is_publish};
ghost use Rattle.net_model.specs.Real.{real};
ghost use Rattle.net_model.specs.Meaning.{command_of};
ghost use Rattle.net_model.specs.Sound.{controls, publishes};

use net_model::{Client, Command};

/// How many commands clients have.
#[derive(Drop)]
pub struct CommandCounts {
    /// How many of them are publishes.
    pub publishes: u64,
    /// How many are others.
    pub controls: u64,
}

// Whether it is a publish.
fn is_publish(command: &Command) -> bool
    ensures { result ≡ is_publish real (command_of command.now) }
{
    matches!(command, Command::Publish(_))
}

// The commands of a client.
fn count_script(client: &Client) -> CommandCounts
    ensures publishes { result.publishes ≡ publishes client.now }
    ensures controls { result.controls ≡ controls client.now }
{
    let mut publishes = 0;
    let mut controls = 0;
    for (_, command) in &client.script {
        if is_publish(command) {
            publishes += 1;
        } else {
            controls += 1;
        }
    }
    CommandCounts {
        publishes,
        controls,
    }
}

/// The commands of clients, of whom the caller knows that they have at most 100,000 publishes and 4,096 others.
pub fn count_commands(clients: &[Client]) -> CommandCounts
    requires publishes { sum_over publishes clients.now ≤ 100000 }
    requires controls { sum_over controls clients.now ≤ 4096 }
    ensures publishes { result.publishes ≡ sum_over publishes clients.now }
    ensures controls { result.controls ≡ sum_over controls clients.now }
{
    let mut publishes = 0;
    let mut controls = 0;
    for client in clients {
        let more = count_script(client);
        publishes += more.publishes;
        controls += more.controls;
    }
    CommandCounts {
        publishes,
        controls,
    }
}
