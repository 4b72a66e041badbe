// Texts that spreadsheets and drawing programs write, and texts that they must not.
use crate::small::{LINES, STATIONS, TREE, told};
use plan::Plan;

fn fill(stations: &[u8], lines: &[u8], tree: &[u8]) -> (u8, u8, u32) {
    told(Plan::blank().fill(stations, lines, tree))
}

#[test]
fn tables(rt: HostRuntime) {
    let good: [&[u8]; 3] = [
        b"station,hours,gain,urgent,hold\r\n0,2,100,0,free\r\n1,3,400,0,free\r\n2,3,500,0,free\r\n3,1,-50,0,free",
        b"\"station\",\"hours\",\"gain\",\"urgent\",\"hold\"\r\n\"0\",\"2\",\"100\",\"0\",\"free\"\r\n1,3,400,0,free\r\n2,3,500,0,shut\r\n3,1,-50,0,open\r\n",
        b"station,hours,gain,urgent,hold\r\n0,1000,1000000000,1,free\r\n1,0,-1000000000,0,free\r\n2,0,0,0,free\r\n3,0,0,0,free\r\n",
    ];
    for text in good {
        assert_eq!(rt; fill(text, LINES, TREE), (0, 0, 0));
    }
    let bad: [(&[u8], (u8, u8, u32)); 14] = [
        (b"", (4, 0, 0)),
        (b"station,hours,gain,urgent,hold", (7, 0, 0)),
        (
            b"station,hours,gain,urgent,hold\r\n0,1,1,0,free\r\n",
            (7, 0, 1),
        ),
        (b"station,hours,gain,urgent\r\n", (4, 0, 0)),
        (b"station,hours,gain,urgent,hold\r\n\r\n", (4, 0, 1)),
        (
            b"station,hours,gain,urgent,hold\r\n0,1001,1,0,free\r\n",
            (5, 0, 1),
        ),
        (
            b"station,hours,gain,urgent,hold\r\n0,01,1,0,free\r\n",
            (5, 0, 1),
        ),
        (
            b"station,hours,gain,urgent,hold\r\n0,1,-0,0,free\r\n",
            (5, 0, 1),
        ),
        (
            b"station,hours,gain,urgent,hold\r\n0,1,1000000001,0,free\r\n",
            (5, 0, 1),
        ),
        (
            b"station,hours,gain,urgent,hold\r\n0,1,1,2,free\r\n",
            (5, 0, 1),
        ),
        (
            b"station,hours,gain,urgent,hold\r\n1,1,1,0,free\r\n",
            (6, 0, 1),
        ),
        (
            b"station,hours,gain,urgent,hold\n0,1,1,0,free\n",
            (3, 0, 30),
        ),
        (
            b"station,hours,gain,urgent,hold\r\n0,1,1,0,\"fr\"\"ee\"\r\n",
            (5, 0, 1),
        ),
        (b"station,hours,gain,urgent,hold\rx", (3, 0, 31)),
    ];
    for (text, answer) in bad {
        assert_eq!(rt; fill(text, LINES, TREE), answer);
    }
}

#[test]
fn lines(rt: HostRuntime) {
    let bad: [(&[u8], (u8, u8, u32)); 6] = [
        (b"line,from,to,gain\r\n", (7, 1, 0)),
        (b"line,from,to,gain\r\n0,0,4,0\r\n", (8, 1, 1)),
        (b"line,from,to,gain\r\n0,1,1,0\r\n", (8, 1, 1)),
        (
            b"line,from,to,gain\r\n0,99999999999999999999,1,0\r\n",
            (8, 1, 1),
        ),
        (b"line,from,to,gain\r\n0,0,1,+1\r\n", (5, 1, 1)),
        (b"line,from,to,gain\r\n0,0,1\r\n", (4, 1, 1)),
    ];
    for (text, answer) in bad {
        assert_eq!(rt; fill(STATIONS, text, TREE), answer);
    }
}

#[test]
fn trees(rt: HostRuntime) {
    let bad: [(&[u8], (u8, u8, u32)); 14] = [
        (b"", (9, 2, 0)),
        (b";", (9, 2, 0)),
        (b"((0,1)s,(2,3)s)p", (9, 2, 16)),
        (b"((0,1)s,(2,3)s)p;\n", (9, 2, 17)),
        (b"((0,1)s,(2,3)s)p;;", (9, 2, 17)),
        (b"((0,1):1,(2,3)s)p;", (9, 2, 6)),
        (b"( (0,1)s,(2,3)s)p;", (9, 2, 1)),
        (b"((00,1)s,(2,3)s)p;", (9, 2, 3)),
        (b"((0,4)s,(2,3)s)p;", (11, 2, 4)),
        (b"((0,1)s,(2,2)s)p;", (11, 2, 11)),
        (b"((0,1)s,(2,3)s)s;", (12, 2, 15)),
        (b"((0,2)p,(1,3)p)s;", (12, 2, 6)),
        (b"(0,1)s;", (13, 2, 7)),
        (b"0;", (13, 2, 2)),
    ];
    for (text, answer) in bad {
        assert_eq!(rt; fill(STATIONS, LINES, text), answer);
    }
}
