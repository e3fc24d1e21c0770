use pdw_base::{ColId, NodeCount};
use pdw_move::{Constants, Flow, Move, move_cost};
use std::test::Fail;

#[test]
fn each_move_costs_its_slowest_part(rt: HostRuntime) -> Result<(), Fail> {
    let flow = Flow {
        rows: 1_000,
        width: 16,
    };
    let nodes = NodeCount::new(2).unwrap();
    let constants = Constants::defaults();
    for (mv, cost) in [
        (Move::Shuffle(ColId(0)), 32_000),
        (Move::ToSingle, 48_000),
        (Move::ToControl, 96_000),
        (Move::Broadcast, 64_000),
        (Move::Trim(ColId(0)), 32_000),
        (Move::FromSingle, 128_000),
        (Move::FromControl, 256_000),
    ] {
        assert_eq!(rt; move_cost(&mv, flow, nodes, &constants), cost);
    }
    Ok(())
}

#[test]
fn shares_are_rounded_up(rt: HostRuntime) -> Result<(), Fail> {
    let flow = Flow { rows: 1, width: 9 };
    let nodes = NodeCount::new(4).unwrap();
    let constants = Constants::defaults();
    assert_eq!(rt;
        move_cost(&Move::Shuffle(ColId(0)), flow, nodes, &constants),
        12
    );
    Ok(())
}
