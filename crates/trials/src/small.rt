// The small plant: a gate, two clarifiers side by side, and a door.
use plan::Plan;
use plant::refusal::Refusal;
use yardsticks::money::Money;
use yardsticks::urgent::UrgentFirst;
use yardsticks::yardstick::Yardstick;

pub const STATIONS: &[u8] =
    b"station,hours,gain,urgent,hold\r\n0,2,100,0,free\r\n1,3,400,0,free\r\n2,3,500,0,free\r\n3,1,-50,0,free\r\n";

pub const LINES: &[u8] =
    b"line,from,to,gain\r\n0,0,1,200\r\n1,1,3,0\r\n2,0,2,-300\r\n3,2,3,250\r\n";

pub const TREE: &[u8] = b"((0,1)s,(2,3)s)p;";

// A refusal as its number, part and place; nothing refused is three zeros. A triple, as each case of the tests writes it down.
pub fn told<T: Drop>(r: Result<T, Refusal>) -> (u8, u8, u32) {
    match r {
        Ok(_) => (0, 0, 0),
        Err(e) => (e.reason.number(), e.part.number(), e.place),
    }
}

// Which of the first four stations are picked, the hours and the gain; or the number of the refusal as hours. One shape for both, as the
// cases write it down.
fn solved<Y: Yardstick>(
    plan: &Plan,
    y: &Y,
    cells: &mut [Option<Y::Figure>],
) -> ([bool; 4], u32, i64) {
    match plan.solve(y, cells) {
        Ok(pick) => {
            let open = pick.selection().open;
            (
                [open[0], open[1], open[2], open[3]],
                pick.hours(),
                pick.gain(),
            )
        }
        Err(e) => ([false; 4], e.reason.number() as u32, 0),
    }
}

// One function for each yardstick: that 300 cells of any figure fit into memory is not known.
fn by_money(plan: &Plan) -> ([bool; 4], u32, i64) {
    let mut cells = [None; 300];
    solved(plan, &Money {}, &mut cells)
}

fn by_urgency(plan: &Plan) -> ([bool; 4], u32, i64) {
    let mut cells = [None; 300];
    solved(plan, &UrgentFirst {}, &mut cells)
}

#[test]
fn lists(rt: HostRuntime) {
    let mut plan = Plan::blank();
    assert_eq!(rt; told(plan.fill(STATIONS, LINES, TREE)), (0, 0, 0));
    let table = [
        (0, [false, false, false, false], 0, 0),
        (2, [true, false, false, false], 2, 100),
        (5, [false, false, true, true], 4, 700),
        (6, [false, true, true, false], 6, 900),
        (9, [false, true, true, true], 7, 1_100),
    ];
    for (budget, open, hours, gain) in table {
        assert_eq!(rt; told(plan.set_hours(budget)), (0, 0, 0));
        assert_eq!(rt; by_money(&plan), (open, hours, gain));
    }
}

#[test]
fn held_and_urgent(rt: HostRuntime) {
    let mut plan = Plan::blank();
    assert_eq!(rt; told(plan.fill(STATIONS, LINES, TREE)), (0, 0, 0));
    assert_eq!(rt; told(plan.set_hold(0, 1)), (0, 0, 0));
    assert_eq!(rt; told(plan.set_hours(5)), (0, 0, 0));
    assert_eq!(rt; by_money(&plan), ([true, true, false, false], 5, 700));
    assert_eq!(rt; told(plan.set_hours(1)), (0, 0, 0));
    assert_eq!(rt; by_money(&plan), ([false; 4], 17, 0));
    assert_eq!(rt; told(plan.set_hold(0, 0)), (0, 0, 0));
    assert_eq!(rt; told(plan.set_station(0, 2, 100, 1)), (0, 0, 0));
    assert_eq!(rt; told(plan.set_hours(6)), (0, 0, 0));
    assert_eq!(rt; by_urgency(&plan), ([true, true, false, false], 5, 700));
    assert_eq!(rt; by_money(&plan), ([false, true, true, false], 6, 900));
}
