// Options that may stand once in a text: name, protocol and flow.
ghost use Rattle.std.specs.Prelude.{◌≡◌};
ghost use Rattle.read_insert.specs.Inserting.{name_inserted, protocol_inserted, flow_inserted};

use definitions::answers::Refusal;
use definitions::table::Flow;
use read_state::{Given, Inserted, State, check_again, no_item};

// A name is told by its first byte's place and its length.
pub fn insert_name(st: State, from: usize, n: usize) -> Result<Inserted, Refusal>
    ensures { result ≡ name_inserted st from n }
{
    check_again(st.given.name)?;
    let given = Given {
        name: true,
        ..st.given
    };
    Ok(no_item(State {
        from,
        len: n,
        given,
        ..st
    }))
}

// A protocol is kept by its number.
pub fn insert_protocol(st: State, p: u8) -> Result<Inserted, Refusal>
    ensures { result ≡ protocol_inserted st p }
{
    check_again(st.given.protocol)?;
    let given = Given {
        protocol: true,
        ..st.given
    };
    Ok(no_item(State {
        protocol: p,
        given,
        ..st
    }))
}

// A flow is kept as it is read.
pub fn insert_flow(st: State, f: Flow) -> Result<Inserted, Refusal>
    ensures { result ≡ flow_inserted st f }
{
    check_again(st.given.flow)?;
    let given = Given {
        flow: true,
        ..st.given
    };
    Ok(no_item(State {
        flow: f,
        given,
        ..st
    }))
}
