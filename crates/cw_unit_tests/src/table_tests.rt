//! Tests of the table: distances, steps back, the rows that fit, and ranks.
use cw_base::{ALL_CATS, Cat, CatSet};
use cw_table::{Piece, RowNo, first_production, rank, step_back, table};

// The first category of a set, or End past the tests.
fn first_of(set: CatSet) -> Cat {
    for cat in &ALL_CATS {
        if set.has(*cat) {
            return *cat;
        }
    }
    Cat::End
}

// The least safe distance of each row.
static DISTANCES: [usize; 148] = [
    2, 2, 3, 2, 2, 2, 2, 2, 2, 2, 2, 2, 2, 2, 0, 0, 2, 2, 2, 1, 1, 1, 2, 2, 2, 2, 2, 1, 0, 0, 1, 1,
    1, 1, 1, 2, 1, 1, 2, 2, 0, 2, 2, 2, 2, 1, 1, 2, 2, 2, 2, 2, 3, 2, 2, 2, 0, 3, 2, 2, 3, 2, 0, 2,
    2, 2, 1, 2, 1, 2, 1, 1, 2, 0, 0, 1, 1, 1, 2, 2, 3, 0, 1, 1, 1, 1, 0, 1, 2, 0, 2, 2, 2, 2, 1, 0,
    1, 0, 2, 2, 2, 2, 0, 2, 2, 0, 1, 0, 2, 2, 2, 3, 1, 1, 1, 2, 3, 2, 1, 1, 2, 2, 2, 2, 2, 2, 3, 0,
    2, 2, 2, 0, 2, 2, 1, 2, 3, 2, 1, 1, 2, 2, 1, 0, 1, 1, 2, 1,
];

#[test]
fn steps_back_are_the_least_safe_distances(rt: HostRuntime) {
    let table = table();
    for number in 1..149 {
        let found = [
            step_back(RowNo { number }),
            table.distance(RowNo { number }),
        ];
        assert_eq!(rt;
            found,
            [DISTANCES[number as usize - 1]; 2],
            "production {number}"
        );
    }
}

#[test]
fn nothing_fits_at_what_no_row_joins(rt: HostRuntime) {
    let table = table();
    assert!(rt;
        table
            .first_at([Cat::Dead, Cat::Exp, Cat::Exp, Cat::Exp])
            .is_none()
    );
}

#[test]
fn each_row_is_found_by_its_own_tests(rt: HostRuntime) {
    let table = table();
    for number in 1..149 {
        let row = table.row(RowNo { number });
        let window = [
            first_of(row.tests[0]),
            first_of(row.tests[1]),
            first_of(row.tests[2]),
            first_of(row.tests[3]),
        ];
        let found = [table.first_at(window), first_production(window)];
        assert_eq!(rt; found, [Some(RowNo { number }); 2]);
    }
}

#[test]
fn rows_are_as_written(rt: HostRuntime) {
    let table = table();
    let row = table.row(RowNo { number: 58 });
    assert!(rt; table.is_sound());
    assert!(rt; row.tests[0].has(Cat::IfClause) && !row.tests[0].has(Cat::IfLike));
    assert!(rt; row.action.usual.pieces[9] == Piece::Scrap(3) && row.action.usual.count == 10);
}

#[test]
fn ranks(rt: HostRuntime) {
    let ranks = [
        rank(Cat::RawInt),
        rank(Cat::SectionScrap),
        rank(Cat::Exp),
        rank(Cat::Dot),
        rank(Cat::Dead),
        rank(Cat::Box),
        rank(Cat::TexLike),
        rank(Cat::Paren),
        rank(Cat::MdefineLike),
        rank(Cat::HashLike),
    ];
    assert_eq!(rt; ranks, [3, 2, 1, 1, 0, 3, 2, 2, 1, 0]);
}
