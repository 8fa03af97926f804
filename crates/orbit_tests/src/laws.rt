use nav_laws::old_is_far;
use periods::{
    closed_stays, digests_are, each_stamp_has_one_end, items_concatenate, items_fit_together,
    keys_are_decided, later_stamps_change_no_closed_end, one_more_part, one_more_stamp,
    only_ephemerides_are_repeated, order_does_not_matter, parts_far_apart, periods_are,
};
use slot_assembly::one_next;

#[test]
fn laws() {
    closed_stays();
    digests_are();
    each_stamp_has_one_end();
    items_concatenate();
    items_fit_together();
    keys_are_decided();
    later_stamps_change_no_closed_end();
    old_is_far();
    one_more_part();
    one_more_stamp();
    one_next();
    only_ephemerides_are_repeated();
    order_does_not_matter();
    parts_far_apart();
    periods_are();
}
