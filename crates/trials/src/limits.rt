// The largest plants, and those one too large.
use crate::small::{LINES, TREE, told};
use plan::Plan;
use std::alloc::Global;
use std::fmt::Write;
use std::test::Fail;

// So many stations, all alike.
fn stations(heap: Global, count: usize) -> anyhow::Result<String> {
    let mut text = String::from_str(heap, "station,hours,gain,urgent,hold\r\n")?;
    for k in 0..count {
        write!(text, "{k},1,1,0,free\r\n")?;
    }
    Ok(text)
}

// So many lines: one to the next station as long as there is one, and then again from the first to the second.
fn lines(heap: Global, stations: usize, count: usize) -> anyhow::Result<String> {
    let mut text = String::from_str(heap, "line,from,to,gain\r\n")?;
    for k in 0..count {
        let from = if k < stations.saturating_sub(1) { k } else { 0 };
        let to = from + 1;
        write!(text, "{k},{from},{to},1\r\n")?;
    }
    Ok(text)
}

// All lines, joined one after another by this letter.
fn tree(heap: Global, count: usize, letter: char) -> anyhow::Result<String> {
    let mut text = String::new(heap);
    for _ in 1..count {
        text.push('(')?;
    }
    text.push('0')?;
    for k in 1..count {
        write!(text, ",{k}){letter}")?;
    }
    text.push(';')?;
    Ok(text)
}

#[test]
fn plants(rt: HostRuntime) -> Result<(), Fail> {
    let heap = rt.alloc();
    let two = stations(heap, 2)?;
    let most = stations(heap, 64)?;
    let chain = lines(heap, 64, 63)?;
    let drawn = tree(heap, 63, 's')?;
    let answer = Plan::blank().fill(most.as_bytes(), chain.as_bytes(), drawn.as_bytes());
    assert_eq!(rt; told(answer), (0, 0, 0));
    let many = stations(heap, 65)?;
    let answer = Plan::blank().fill(many.as_bytes(), chain.as_bytes(), drawn.as_bytes());
    assert_eq!(rt; told(answer), (7, 0, 65));
    let beside = lines(heap, 2, 128)?;
    let drawn = tree(heap, 128, 'p')?;
    let answer = Plan::blank().fill(two.as_bytes(), beside.as_bytes(), drawn.as_bytes());
    assert_eq!(rt; told(answer), (0, 0, 0));
    let beside = lines(heap, 2, 129)?;
    let answer = Plan::blank().fill(two.as_bytes(), beside.as_bytes(), drawn.as_bytes());
    assert_eq!(rt; told(answer), (7, 1, 129));
    Ok(())
}

#[test]
fn sizes(rt: HostRuntime) -> Result<(), Fail> {
    let heap = rt.alloc();
    let four = stations(heap, 4)?;
    let deep = vec![in heap; b'('; 128]?;
    let answer = Plan::blank().fill(four.as_bytes(), LINES, deep.as_slice());
    assert_eq!(rt; told(answer), (10, 2, 127));
    let long = vec![in heap; b'x'; 65_535]?;
    assert_eq!(rt;
        told(Plan::blank().fill(long.as_slice(), LINES, TREE)),
        (4, 0, 0)
    );
    let longer = vec![in heap; b'x'; 65_536]?;
    assert_eq!(rt;
        told(Plan::blank().fill(longer.as_slice(), LINES, TREE)),
        (1, 0, 0)
    );
    assert_eq!(rt;
        told(Plan::blank().fill(four.as_bytes(), LINES, longer.as_slice())),
        (1, 2, 0)
    );
    Ok(())
}
