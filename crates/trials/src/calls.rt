// Numbers and memory of any size.
use crate::small::{LINES, STATIONS, TREE, told};
use plan::Plan;
use plan::sheet::refusal_line;
use plant::refusal::{Part, Reason, Refusal};
use std::test::Fail;
use yardsticks::money::Money;

#[test]
fn set(rt: HostRuntime) {
    let mut plan = Plan::blank();
    assert_eq!(rt; told(plan.set_hours(0)), (14, 3, 0));
    assert_eq!(rt; told(plan.fill(STATIONS, LINES, TREE)), (0, 0, 0));
    assert_eq!(rt; told(plan.set_hours(1_000)), (0, 0, 0));
    assert_eq!(rt; told(plan.set_hours(1_001)), (16, 3, 0));
    assert_eq!(rt;
        told(plan.set_station(4_294_967_295, 0, 0, 0)),
        (15, 3, 4_294_967_295)
    );
    assert_eq!(rt;
        told(plan.set_station(0, 1_001, 1_000_000_001, 2)),
        (16, 3, 0)
    );
    assert_eq!(rt;
        told(plan.set_station(0, 1_000, -1_000_000_001, 2)),
        (16, 3, 1)
    );
    assert_eq!(rt;
        told(plan.set_station(0, 1_000, -1_000_000_000, 2)),
        (16, 3, 2)
    );
    assert_eq!(rt;
        told(plan.set_station(0, 1_000, 1_000_000_000, 1)),
        (0, 0, 0)
    );
    assert_eq!(rt; told(plan.set_line(4, 0)), (15, 3, 4));
    assert_eq!(rt; told(plan.set_line(3, 1_000_000_001)), (16, 3, 0));
    assert_eq!(rt; told(plan.set_hold(3, 3)), (16, 3, 0));
    assert_eq!(rt; told(plan.set_hold(3, 2)), (0, 0, 0));
}

// A solve of the small plant over so many cells, each of which holds a seven: the answer, and the last cell.
fn solve_over(cells: &mut [Option<i64>], hours: u32) -> (u8, u8, u32) {
    let mut plan = Plan::blank();
    if plan.fill(STATIONS, LINES, TREE).is_err() || plan.set_hours(hours).is_err() {
        return (0, 0, 0);
    }
    told(plan.solve(&Money {}, cells))
}

#[test]
fn cells(rt: HostRuntime) {
    let mut few = [Some(7); 195];
    assert_eq!(rt; solve_over(&mut few, 6), (2, 3, 196));
    assert_eq!(rt; few[0], Some(7));
    let mut enough = [Some(7); 200];
    assert_eq!(rt; solve_over(&mut enough, 6), (0, 0, 0));
    assert_eq!(rt; enough[196], Some(7));
}

#[test]
fn bytes(rt: HostRuntime) {
    let refusal = Refusal {
        reason: Reason::HalvesApart,
        part: Part::Tree,
        place: 15,
    };
    let mut short = [b'.'; 16];
    assert_eq!(rt; told(refusal_line(&refusal, &mut short)), (2, 3, 17));
    assert!(rt; &short == b"................");
    let mut line = [b'.'; 20];
    assert_eq!(rt; told(refusal_line(&refusal, &mut line)), (0, 0, 0));
    assert!(rt; &line == b"refused,12,2,15\r\n...");
}

#[test]
fn ticks(rt: HostRuntime) -> Result<(), Fail> {
    let mut plan = Plan::blank();
    let mut cells = [None; 200];
    assert_eq!(rt; told(plan.fill(STATIONS, LINES, TREE)), (0, 0, 0));
    assert_eq!(rt; told(plan.set_hours(6)), (0, 0, 0));
    let Ok(pick) = plan.solve(&Money {}, &mut cells) else {
        return Err(Fail::new("refused"));
    };
    let mut issue = pick.issue();
    assert_eq!(rt; told(issue.tick(4)), (15, 3, 4));
    assert_eq!(rt; told(issue.tick(0)), (18, 3, 0));
    assert_eq!(rt; told(issue.tick(2)), (0, 0, 0));
    assert_eq!(rt; told(issue.tick(2)), (18, 3, 2));
    let done = issue.end();
    assert_eq!(rt; done.hours.ticked, 3);
    assert_eq!(rt; done.hours.open, 3);
    Ok(())
}
