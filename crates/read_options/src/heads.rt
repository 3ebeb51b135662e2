// protocol and flow.
ghost use Rattle.std.specs.Prelude.{[], ◌≤◌, length};
ghost use Rattle.definitions.specs.Forms.{protocol_form, flow_form};
ghost use Rattle.read_value.specs.Values.{option_value_of, Plain};
ghost use Rattle.scan_cursors.specs.Reads.{Reads};
ghost use Rattle.scan_cursors.specs.declared.Cursor.TheVariants.{Parsed};

use read_value::Value;
use read_words::{then_flow, then_protocol};
use scan_cursors::Scanned;
use scan_pieces::literals::gap_at;
use scan_steps::literals::then_closing;

// The option protocol.
pub fn protocol_option(s: &[u8], at: usize) -> Scanned<Value>
    requires { at ≤ length s.now }
    ensures { Reads protocol_form s.now (Parsed at) (option_value_of s.now result.value [] []) result.cursor × Plain result.value }
{
    let c = gap_at(s, at);
    let n = then_protocol(s, c);
    Scanned {
        value: Value::Protocol(n.value as u8),
        cursor: then_closing(s, n.cursor),
    }
}

// The option flow.
pub fn flow_option(s: &[u8], at: usize) -> Scanned<Value>
    requires { at ≤ length s.now }
    ensures { Reads flow_form s.now (Parsed at) (option_value_of s.now result.value [] []) result.cursor × Plain result.value }
{
    let c = gap_at(s, at);
    let f = then_flow(s, c);
    Scanned {
        value: Value::Flow(f.value),
        cursor: then_closing(s, f.cursor),
    }
}
