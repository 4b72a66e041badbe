// A plant of four stations: two ways from the first to the last, each of two lines.
ghost use Rattle.std.specs.Prelude.{◌≡◌, ℕ, ◌<◌, ◌≤◌, length};
ghost use Rattle.drawing.specs.Verdict.{Joins};

use super::read;
use plant::records::Line;
use plant::refusal::Reason;

fn line(from: usize, to: usize) -> Line
    ensures from { result.from ≡ from }
    ensures to { result.to ≡ to }
{
    Line { from, to, gain: 0 }
}

fn lines() -> [Line; 4]
    ensures { Joins 4 result }
{
    [line(0, 1), line(1, 3), line(0, 2), line(2, 3)]
}

// The number of nodes, or why the text is refused and where.
fn judged(text: &[u8]) -> Result<usize, (Reason, u32)>
    requires { length text.now ≤ 65535 }
{
    read(text, 4, &lines())
        .map(|nodes| nodes.count)
        .map_err(|e| (e.reason, e.place))
}

#[test]
fn plants(rt: HostRuntime) {
    assert_eq!(rt; judged(b"((0,1)s,(2,3)s)p;"), Ok(7));
    assert_eq!(rt; judged(b"((2,3)s,(0,1)s)p;"), Ok(7));
    assert_eq!(rt; judged(b"(0,1)s;"), Err((Reason::NotThePlant, 7)));
}

#[test]
fn joins(rt: HostRuntime) {
    assert_eq!(rt;
        judged(b"((0,1)s,(2,3)s)s;"),
        Err((Reason::HalvesApart, 15))
    );
    assert_eq!(rt; judged(b"((0,2)p,(1,3)p)s;"), Err((Reason::HalvesApart, 6)));
    assert_eq!(rt; judged(b"((0,1)s,(2,2)s)p;"), Err((Reason::LeafNumber, 11)));
    assert_eq!(rt;
        judged(b"(0,12345678901234567890)s;"),
        Err((Reason::LeafNumber, 3))
    );
}

#[test]
fn grammar(rt: HostRuntime) {
    assert_eq!(rt; judged(b""), Err((Reason::TreeGrammar, 0)));
    assert_eq!(rt; judged(b"(00,1)s;"), Err((Reason::TreeGrammar, 2)));
    assert_eq!(rt; judged(b"(0,1)s;\n"), Err((Reason::TreeGrammar, 7)));
    assert_eq!(rt; judged(&[b'('; 128]), Err((Reason::TooDeep, 127)));
}
