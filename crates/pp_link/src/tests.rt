//! The link word and the layout by worked examples.

use super::*;

#[test]
fn a_link_is_one_word(rt: HostRuntime) {
    assert_eq!(rt; Link::pack(7, true, false, false, true).word(), 121);
    assert_eq!(rt;
        Link::of(121),
        Some(Link::pack(7, true, false, false, true))
    );
    assert_eq!(rt; Link::of(53), Some(Link::pack(3, true, false, true, false)));
    assert_eq!(rt; Link::of(1 << 36), None);
    let all = Link::pack(u32::MAX, true, true, true, true);
    assert_eq!(rt; all.word(), (1 << 36) - 1);
    assert_eq!(rt; Link::of(all.word()), Some(all));
}

#[test]
fn a_small_layout_has_these_places(rt: HostRuntime) {
    let layout = Layout::new(Sizes {
        passes: 1,
        records: 8,
        heads: 1,
    });
    assert_eq!(rt; layout.total(), 59);
    assert_eq!(rt; layout.walk_word(0, 0), 1);
    assert_eq!(rt; layout.frontier_word(0, 0), 6);
    assert_eq!(rt; layout.shelf_word(0), 10);
    assert_eq!(rt; layout.head_word(0), 18);
    assert_eq!(rt; layout.cell(1, Field::Key), 19);
    assert_eq!(rt; layout.cell(8, Field::Right), 57);
    assert_eq!(rt; layout.cell(8, Field::High), 58);
}

#[test]
fn the_largest_layout_has_these_places(rt: HostRuntime) {
    let layout = Layout::new(Sizes {
        passes: 64,
        records: 262_144,
        heads: 4_096,
    });
    assert_eq!(rt; layout.total(), 1_315_905);
    assert_eq!(rt; layout.head_word(0), 1_089);
    assert_eq!(rt; layout.cell(1, Field::Key), 5_185);
    assert_eq!(rt; layout.cell(262_144, Field::Key), 1_315_900);
    assert_eq!(rt; layout.cell(262_144, Field::High), 1_315_904);
}
