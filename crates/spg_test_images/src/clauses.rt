use crate::image::{LENGTH, Run, nowhere, verdict};
use spg_clauses::Reason;
use spg_image::{ImageRefused, Verified};
use std::alloc::Global;
use std::test::Fail;

/// How many bytes of the image are there, its changes, the block that is told, and the reason.
type Case = (usize, &'static [Run], u32, Reason);

/// Images that fail one clause and no earlier one, in the order of the clauses.
const ONE: [Case; 25] = [
    (8191, &[], 0, Reason::Length),
    (0, &[], 0, Reason::Length),
    // The kind of an inner page.
    (LENGTH, &[(0, 6, &[2])], 0, Reason::Header),
    // No image has this version.
    (LENGTH, &[(0, 4, &[3])], 0, Reason::Header),
    // No class has this code; that of ranges comes with version 2.
    (LENGTH, &[(0, 24, &[5])], 0, Reason::Class),
    (LENGTH, &[(0, 24, &[4])], 0, Reason::Class),
    // A byte is missing; only the meta page is there, as where a save failed; one page more than there
    // are; two pages.
    (LENGTH - 1, &[], 0, Reason::Length),
    (8192, &[], 0, Reason::Length),
    (LENGTH, &[(0, 28, &[6])], 0, Reason::Length),
    (2 * 8192, &[(0, 28, &[2])], 0, Reason::Length),
    // A counter above 7; a root as the leaf page that is remembered; a clock of 2^48.
    (LENGTH, &[(0, 72, &[8])], 0, Reason::Meta),
    (LENGTH, &[(0, 40, &[2])], 0, Reason::Meta),
    (LENGTH, &[(0, 38, &[1])], 0, Reason::Meta),
    // Block 3 says that it is block 4.
    (LENGTH, &[(3, 8, &[4])], 3, Reason::Header),
    // The tuples begin one byte before the last one does.
    (LENGTH, &[(3, 14, &[159])], 3, Reason::Items),
    // A tag that no tuple has.
    (LENGTH, &[(3, 8160, &[6])], 3, Reason::Tuple),
    // A leaf on an inner page.
    (LENGTH, &[(4, 6, &[2])], 4, Reason::Kind),
    // A leaf of a root's page leads on.
    (LENGTH, &[(2, 8172, &[1])], 2, Reason::Root),
    // The redirect leads to itself; its stamp is that of the clock.
    (LENGTH, &[(3, 8100, &[3, 0, 0, 0, 4])], 3, Reason::Redirect),
    (LENGTH, &[(3, 8106, &[1])], 3, Reason::Redirect),
    // A link to the redirect.
    (LENGTH, &[(1, 8164, &[4])], 1, Reason::Target),
    // Two links to 3, 1.
    (LENGTH, &[(1, 8164, &[1])], 3, Reason::Count),
    // 3, 1 leads nowhere, and 3, 2 to itself.
    (
        LENGTH,
        &[(3, 8164, &[0]), (3, 8140, &[2])],
        3,
        Reason::Circle,
    ),
    // 1,1 in the place of 1,-1, which the root's node does not admit.
    (LENGTH, &[(3, 8132, &[1, 0, 0, 0])], 3, Reason::Key),
    // The row 1.1 for that of 4, 1.
    (LENGTH, &[(4, 8166, &[1])], 4, Reason::Row),
];

/// Images that fail several: the first of them is told.
const SEVERAL: [Case; 12] = [
    // A meta page that is cut off and has another kind; one of no class whose count is wrong.
    (8191, &[(0, 6, &[2])], 0, Reason::Length),
    (LENGTH, &[(0, 24, &[4]), (0, 28, &[6])], 0, Reason::Class),
    (LENGTH, &[(0, 28, &[6]), (0, 72, &[8])], 0, Reason::Length),
    (LENGTH, &[(0, 72, &[8]), (1, 8, &[2])], 0, Reason::Meta),
    // A lower block goes before an earlier clause of the same pass.
    (LENGTH, &[(3, 8160, &[6]), (4, 8, &[3])], 3, Reason::Tuple),
    (LENGTH, &[(3, 6, &[2]), (4, 8, &[3])], 3, Reason::Kind),
    (
        LENGTH,
        &[(1, 8164, &[4]), (3, 8106, &[1])],
        1,
        Reason::Target,
    ),
    (LENGTH, &[(2, 8172, &[1]), (3, 8106, &[1])], 2, Reason::Root),
    // An earlier pass goes before a lower block.
    (LENGTH, &[(1, 8164, &[4]), (4, 6, &[2])], 4, Reason::Kind),
    (
        LENGTH,
        &[
            (3, 8132, &[1, 0, 0, 0]),
            (4, 8144, &[4, 0, 16, 0, 3, 0, 0, 0, 1, 0, 1]),
        ],
        4,
        Reason::Redirect,
    ),
    // Keys on two blocks, of which the lower one is told, before a row.
    (
        LENGTH,
        &[(3, 8132, &[1, 0, 0, 0]), (4, 8176, &[1]), (4, 8166, &[1])],
        3,
        Reason::Key,
    ),
    // Two tuples that lead to themselves.
    (
        LENGTH,
        &[
            (1, 8168, &[0, 0, 0, 0, 0]),
            (4, 8164, &[1]),
            (3, 8164, &[0]),
            (3, 8140, &[2]),
        ],
        3,
        Reason::Circle,
    ),
];

/// Images of version 2 that fail one clause and no earlier one.
const OF_SECOND: [Case; 6] = [
    // Points in a quad tree, in a k-d tree and texts come with version 1.
    (LENGTH, &[(0, 4, &[2])], 0, Reason::Class),
    (LENGTH, &[(0, 4, &[2]), (0, 24, &[2])], 0, Reason::Class),
    (LENGTH, &[(0, 4, &[2]), (0, 24, &[3])], 0, Reason::Class),
    // A root of version 1; a page behind the roots.
    (LENGTH, &[(0, 4, &[2]), (0, 24, &[17])], 1, Reason::Header),
    (
        LENGTH,
        &[(0, 4, &[2]), (0, 24, &[17]), (1, 4, &[2]), (2, 4, &[2])],
        3,
        Reason::Header,
    ),
    // A point without a value.
    (
        LENGTH,
        &[
            (0, 4, &[2]),
            (0, 24, &[17]),
            (1, 4, &[2]),
            (2, 4, &[2]),
            (3, 4, &[2]),
        ],
        3,
        Reason::Kind,
    ),
];

/// An image of two empty roots, of version 2.
const EMPTY: [Run; 7] = [
    (0, 4, &[2]),
    (0, 28, &[3]),
    (1, 4, &[2]),
    (1, 6, &[3]),
    (1, 12, &[0, 0, 248, 31]),
    (2, 4, &[2]),
    (2, 12, &[0, 0, 248, 31]),
];

/// The codes of the classes that come with version 2.
const SECOND_CODES: [&[u8]; 4] = [&[4], &[17], &[18], &[19]];

/// Whether the image is refused as the case says.
fn is_told(alloc: Global, case: &Case) -> Result<bool, Fail> {
    let (length, changes, block, reason) = *case;
    Ok(verdict(alloc, changes, length)? == Err(ImageRefused::BadImage { block, reason }))
}

#[test]
fn tells_each_clause(rt: HostRuntime) -> Result<(), Fail> {
    for (row, case) in ONE.iter().enumerate() {
        assert!(rt; is_told(rt.alloc(), case)?, "row {row}");
    }
    Ok(())
}

#[test]
fn tells_the_first_of_several(rt: HostRuntime) -> Result<(), Fail> {
    for (row, case) in SEVERAL.iter().enumerate() {
        assert!(rt; is_told(rt.alloc(), case)?, "row {row}");
    }
    Ok(())
}

#[test]
fn tells_clauses_of_the_second_version(rt: HostRuntime) -> Result<(), Fail> {
    for (row, case) in OF_SECOND.iter().enumerate() {
        assert!(rt; is_told(rt.alloc(), case)?, "row {row}");
    }
    Ok(())
}

/// Whether an image of two empty roots is taken, with this code of its class.
fn takes(alloc: Global, code: &'static [u8]) -> Result<bool, Fail> {
    let [a, b, c, d, e, f, g] = EMPTY;
    let changes = [a, b, c, d, e, f, g, (0, 24, code)];
    let empty = Verified {
        pages: 3,
        entries: 0,
    };
    Ok(verdict(alloc, &changes, 3 * 8192)? == Ok(empty))
}

#[test]
fn takes_each_class_of_the_second_version(rt: HostRuntime) -> Result<(), Fail> {
    for (row, code) in SECOND_CODES.iter().enumerate() {
        assert!(rt; takes(rt.alloc(), *code)?, "row {row}");
    }
    Ok(())
}

/// Whether the whole image is taken.
fn takes_town(alloc: Global) -> Result<bool, Fail> {
    let whole = Verified {
        pages: 5,
        entries: 5,
    };
    Ok(verdict(alloc, &[], LENGTH)? == Ok(whole))
}

#[test]
fn takes_the_image(rt: HostRuntime) -> Result<(), Fail> {
    assert!(rt; takes_town(rt.alloc())?);
    let missing = ImageRefused::BadImage {
        block: 0,
        reason: Reason::Missing,
    };
    assert!(rt; nowhere(rt.alloc()) == Err(missing));
    Ok(())
}

#[test]
fn names_the_clause_in_its_text(rt: HostRuntime) -> Result<(), Fail> {
    let refused = ImageRefused::BadImage {
        block: 3,
        reason: Reason::Target,
    };
    let text = format!(in rt.alloc(); "{refused}")?;
    assert_eq!(rt; text.as_str(), "bad image: target at block 3");
    Ok(())
}
