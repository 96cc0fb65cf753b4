//! Shows in contracts that what clients publish are notifications.
ghost use Rattle.program_sequential.specs.Promise.{IsOfNotice, IsScriptOfNotices, AreOfNotices};

use net_model::{Client, Command, Net};

// A command has its notice by its type.
fn lemma_command_notice(command: &Command)
    ensures { IsOfNotice command.now }
{
    if let Command::Publish(notice) = command {
        notice.attributes();
    }
}

// So have the commands of a script.
fn lemma_script_notices(script: &[(u32, Command)])
    ensures { IsScriptOfNotices script.now }
{
    for (_, command) in script {
        lemma_command_notice(command);
    }
}

// So have those of all clients.
fn lemma_client_notices(clients: &[Client])
    ensures { AreOfNotices clients.now }
{
    for client in clients {
        lemma_script_notices(&client.script);
    }
}

/// Each notice that a net's clients publish is in its one form, as its type says.
pub fn lemma_notices(net: &Net)
    ensures { AreOfNotices net.now.clients }
{
    lemma_client_notices(&net.clients);
}
