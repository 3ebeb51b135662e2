// The words of options' values, from a cursor on. The first letter decides which word must stand; where two words begin alike, the
// letter after does.
#![tactic(auto)]

ghost use Rattle.std.specs.Prelude.{◌≤◌};
ghost use Rattle.scan_cursors.specs.Reads.{Inside, Reads};
ghost use Rattle.definitions.specs.Limits.{max_byte};
ghost use Rattle.definitions.specs.Forms.{reference_word};
ghost use Rattle.read_words.specs.Words.{protocol_value, flow_word, context_word, h_word, b_word, size_word};

use definitions::limits::MAX_BYTE;
use definitions::table::{Context, Flow, Reference, SizeField};
use scan_cursors::{Cursor, Scanned};
use scan_steps::literals::next_is_letter;
use scan_steps::numbers::then_number;
use scan_steps::words::{then_either_keyword, then_keyword, then_word};

// `tcp`, `udp`, `icmp` or a number.
pub fn then_protocol(s: &[u8], c: Cursor) -> Scanned<u64>
    requires { Inside s.now c }
    ensures { Reads protocol_value s.now c result.value result.cursor × (result.value ≤ max_byte) }
{
    if next_is_letter(s, c, b't') {
        return then_keyword(s, c, b"tcp", 6);
    }
    if next_is_letter(s, c, b'u') {
        return then_keyword(s, c, b"udp", 17);
    }
    if next_is_letter(s, c, b'i') {
        return then_keyword(s, c, b"icmp", 1);
    }
    then_number(s, c, MAX_BYTE)
}

// `from_client` or `from_server`.
pub fn then_flow(s: &[u8], c: Cursor) -> Scanned<Flow>
    requires { Inside s.now c }
    ensures { Reads flow_word s.now c result.value result.cursor }
{
    let from = then_word(s, c, b"from_");
    then_either_keyword(
        s,
        from,
        b"client",
        Flow::FromClient,
        b"server",
        Flow::FromServer,
    )
}

// `match`, `packet` or `context`.
pub fn then_reference(s: &[u8], c: Cursor) -> Scanned<Reference>
    requires { Inside s.now c }
    ensures { Reads reference_word s.now c result.value result.cursor }
{
    if next_is_letter(s, c, b'm') {
        return then_keyword(s, c, b"match", Reference::Match);
    }
    then_either_keyword(
        s,
        c,
        b"packet",
        Reference::Packet,
        b"context",
        Reference::Context,
    )
}

// `payload`, `uri`, `header` or `body`.
pub fn then_size_word(s: &[u8], c: Cursor) -> Scanned<SizeField>
    requires { Inside s.now c }
    ensures { Reads size_word s.now c result.value result.cursor }
{
    if next_is_letter(s, c, b'p') {
        return then_keyword(s, c, b"payload", SizeField::Payload);
    }
    if next_is_letter(s, c, b'u') {
        return then_keyword(s, c, b"uri", SizeField::Uri);
    }
    then_either_keyword(s, c, b"header", SizeField::Header, b"body", SizeField::Body)
}

// `header` or `host`.
fn then_h_word(s: &[u8], c: Cursor) -> Scanned<Context>
    requires { Inside s.now c }
    ensures { Reads h_word s.now c result.value result.cursor }
{
    let h = then_word(s, c, b"h");
    then_either_keyword(s, h, b"eader", Context::Header, b"ost", Context::Host)
}

// `body` or `banner`.
fn then_b_word(s: &[u8], c: Cursor) -> Scanned<Context>
    requires { Inside s.now c }
    ensures { Reads b_word s.now c result.value result.cursor }
{
    let b = then_word(s, c, b"b");
    then_either_keyword(s, b, b"ody", Context::Body, b"anner", Context::Banner)
}

// `packet`, `uri`, `header`, `body`, `banner`, `host` or `file`.
pub fn then_context(s: &[u8], c: Cursor) -> Scanned<Context>
    requires { Inside s.now c }
    ensures { Reads context_word s.now c result.value result.cursor }
{
    if next_is_letter(s, c, b'p') {
        return then_keyword(s, c, b"packet", Context::Packet);
    }
    if next_is_letter(s, c, b'u') {
        return then_keyword(s, c, b"uri", Context::Uri);
    }
    if next_is_letter(s, c, b'h') {
        return then_h_word(s, c);
    }
    if next_is_letter(s, c, b'b') {
        return then_b_word(s, c);
    }
    then_keyword(s, c, b"file", Context::File)
}
