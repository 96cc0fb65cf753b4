//! Writes the lines of scripts to a sink. No call takes memory.
ghost use Rattle.std.specs.Prelude.{◌≡◌, ◌-◌};
ghost use Rattle.std.specs.List.{flat_map};
ghost use Rattle.base_devices.specs.Pending.{outlet, Went};
ghost use Rattle.document_format.specs.DocumentText.{barrier_lines, ended, is_idle, script_lines, step_lines};

use crate::command::put_command;
use crate::line::put_line;
use base_devices::{Pending, Sink};
use net_model::{Client, Command};

// So many lines `barrier`.
fn put_barriers<K: Sink>(out: &mut Pending, sink: &mut K, count: u32)
    ensures { Went (outlet (K.state sink.old) out.old) (outlet (K.state sink.new) out.new)
        (flat_map ended (barrier_lines count)) }
{
    for _ in 0..count {
        out.put(sink, b"barrier\n");
    }
}

// Commands with the barriers before and behind them.
fn put_steps<K: Sink>(out: &mut Pending, sink: &mut K, script: &[(u32, Command)], barriers: u32)
    ensures { Went (outlet (K.state sink.old) out.old) (outlet (K.state sink.new) out.new)
        (flat_map ended (step_lines 0 script.now barriers)) }
{
    let mut phase = 0u32;
    for (at, command) in script {
        put_barriers(out, sink, at.saturating_sub(phase));
        put_command(out, sink, command);
        phase = *at;
    }
    put_barriers(out, sink, barriers.saturating_sub(phase))
}

// Whether a client has neither commands nor barriers.
fn is_idle(client: &Client) -> bool
    ensures { result ≡ is_idle client.now }
{
    client.script.is_empty() && client.barriers == 0
}

/// The script of a client, where it has commands or barriers.
pub(crate) fn put_script<K: Sink>(out: &mut Pending, sink: &mut K, client: &Client)
    ensures { Went (outlet (K.state sink.old) out.old) (outlet (K.state sink.new) out.new)
        (flat_map ended (script_lines client.now)) }
{
    if is_idle(client) {
        return;
    }
    put_line(out, sink, b"script ", client.name.bytes());
    put_steps(out, sink, &client.script, client.barriers)
}
