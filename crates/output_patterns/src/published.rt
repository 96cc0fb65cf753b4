//! Takes out of a net the names of its clients and the notices that they publish.
ghost use Rattle.std.specs.Prelude.{◌≡◌, true, IfOk};
ghost use Rattle.std.specs.Option.{option_copied};
ghost use Rattle.output_report.specs.Published.{by_number};
ghost use Rattle.output_patterns.specs.Published.{at_number, is_published, names_in, notice_at, notices_in, script_notices};

use base::NoMemory;
use filter_text::{Id, Lists};
use filter_types::Notice;
use filter_values::Name;
use net_model::{Client, Command};
use std::alloc::Global;

/// The names of clients, and the notices that they publish.
#[derive(Drop)]
pub struct Published {
    /// The name of each client.
    pub names: Vec<Name>,
    /// The notices of each client, in the order of its script.
    pub notices: Vec<Lists<Notice>>,
}

// The notices of a script's publishes, in order.
fn script_notices(alloc: Global, script: Vec<(u32, Command)>) -> Result<Lists<Notice>, NoMemory>
    ensures { IfOk result (λ notices. notices ≡ script_notices script.items) }
{
    let mut notices = Vec::new(alloc);
    for (_, command) in script {
        if let Command::Publish(notice) = command {
            notices.push(notice)?;
        }
    }
    Ok(Lists::of(notices))
}

/// The names of these clients, and the notices that they publish.
pub fn publications(alloc: Global, clients: Vec<Client>) -> Result<Published, NoMemory>
    ensures names { IfOk result (λ p. p.names.items ≡ names_in clients.items) }
    ensures notices { IfOk result (λ p. p.notices.items ≡ notices_in clients.items) }
{
    let mut names = Vec::with_capacity(alloc, clients.len())?;
    let mut notices = Vec::with_capacity(alloc, clients.len())?;
    for client in clients {
        names.push(client.name)?;
        notices.push(script_notices(alloc, client.script)?)?;
    }
    Ok(Published { names, notices })
}

/// The notice of a publish.
pub fn notice_at(notices: &[Lists<Notice>], id: Id) -> &Notice
    requires { is_published notices.now id ≡ true }
    ensures { result.now ≡ notice_at notices.now id }
{
    let of_client = notices[(id.publisher - 1) as usize].as_slice();
    &of_client[(id.ordinal - 1) as usize]
}

/// What stands at a number, from 1.
pub fn at_number<T>(items: &[T], number: u32) -> Option<&T>
    ensures { option_copied result ≡ at_number items.now number }
{
    match number.checked_sub(1) {
        Some(place) => items.get(place as usize),
        None => None,
    }
}

/// The name of a client, by its number from 1.
pub fn name_at(names: &[Name], number: u32) -> &[u8]
    ensures { result.now ≡ by_number names.now number }
{
    match at_number(names, number) {
        Some(name) => name.bytes(),
        None => &[],
    }
}
