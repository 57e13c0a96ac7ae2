// Joined: either of two kinds, left values before right ones. A range lies in one part. A cell is
// lawful only for a range of its part and holds only there; after a value of the other part it
// has no stop. In all else the part answers.

#![tactic(auto)]

ghost use Rattle.joined.specs.Joins.{joined};
ghost use Rattle.joined.specs.JoinLaws.{joined-lawful};

use kinds::Kind;

// A value or a cell of the left kind or of the right one. `Result` would make one of them an error.
#[derive(Clone, Copy, PartialEq, Eq, Debug)]
pub enum Either<A, B> {
    Left(A),
    Right(B),
}

// The kind joined of two others.
#[derive(Clone, Copy)]
pub struct Joined<L, R> {
    pub left: L,
    pub right: R,
}

impl<L: Kind, R: Kind> Kind for Joined<L, R> {
    type Value = Either<L::Value, R::Value>;

    type Cell = Either<L::Cell, R::Cell>;

    ghost meaning = { joined L.Kind.meaning R.Kind.meaning };

    ghost lawful = { joined-lawful L.Kind.meaning R.Kind.meaning L.Kind.lawful R.Kind.lawful };

    fn at_or_before(a: Self::Value, b: Self::Value) -> bool {
        match (a, b) {
            (Either::Left(x), Either::Left(y)) => L::at_or_before(x, y),
            (Either::Left(_), Either::Right(_)) => true,
            (Either::Right(_), Either::Left(_)) => false,
            (Either::Right(x), Either::Right(y)) => R::at_or_before(x, y),
        }
    }

    fn is_range(least: Self::Value, greatest: Self::Value) -> bool {
        match (least, greatest) {
            (Either::Left(x), Either::Left(y)) => L::is_range(x, y),
            (Either::Right(x), Either::Right(y)) => R::is_range(x, y),
            _ => false,
        }
    }

    fn fits(cell: Self::Cell, least: Self::Value, greatest: Self::Value) -> bool {
        match (cell, least, greatest) {
            (Either::Left(c), Either::Left(x), Either::Left(y)) => L::fits(c, x, y),
            (Either::Right(c), Either::Right(x), Either::Right(y)) => R::fits(c, x, y),
            _ => false,
        }
    }

    fn holds(cell: Self::Cell, value: Self::Value) -> bool {
        match (cell, value) {
            (Either::Left(c), Either::Left(v)) => L::holds(c, v),
            (Either::Right(c), Either::Right(v)) => R::holds(c, v),
            _ => false,
        }
    }

    fn next_stop(cell: Self::Cell, after: Self::Value) -> Option<Self::Value> {
        match (cell, after) {
            (Either::Left(c), Either::Left(v)) => L::next_stop(c, v).map(|s| Either::Left(s)),
            (Either::Right(c), Either::Right(v)) => R::next_stop(c, v).map(|s| Either::Right(s)),
            _ => None,
        }
    }
}
