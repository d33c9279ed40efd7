ghost use Rattle.std.specs.Prelude.{◌&&◌, ◌||◌, ◌==◌, nat_le, nat_lt};
ghost use Rattle.std.proofs.Common.{rules};

use super::*;

// Below another where neither coordinate is greater; in order by `x`, then by `y`.
#[derive(Clone, Copy, PartialEq, Eq, Debug)]
struct Point {
    x: u8,
    y: u8,
}

impl Least for Point {
    ghost below = { λ p q. nat_le p.x q.x && nat_le p.y q.y };

    ghost upto = { λ p q. nat_lt p.x q.x || (p.x == q.x && nat_le p.y q.y) };

    ghost below_reflexive = { Prim.search rules };

    ghost below_antisymmetric = { Prim.search rules };

    ghost below_transitive = { Prim.search rules };

    ghost upto_antisymmetric = { Prim.search rules };

    ghost upto_transitive = { Prim.search rules };

    ghost upto_total = { Prim.search rules };

    ghost agrees = { Prim.search rules };

    fn is_below(&self, other: &Point) -> bool {
        self.x <= other.x && self.y <= other.y
    }

    fn is_upto(&self, other: &Point) -> bool {
        self.x < other.x || (self.x == other.x && self.y <= other.y)
    }
}

fn at(x: u8, y: u8) -> Point {
    Point { x, y }
}

#[test]
fn keeps_a_front(rt: HostRuntime) {
    let mut points = [at(3, 1), at(2, 2), at(1, 4), at(2, 3), at(2, 2)];
    let count = keep_least(&mut points);
    assert_eq!(rt; count, 3);
    assert_eq!(rt; points[0], at(1, 4));
    assert_eq!(rt; points[1], at(2, 2));
    assert_eq!(rt; points[2], at(3, 1));
}

#[test]
fn keeps_none_of_none(rt: HostRuntime) {
    let mut points: [Point; 0] = [];
    assert_eq!(rt; keep_least(&mut points), 0);
}
