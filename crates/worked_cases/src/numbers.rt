// Numbers of up to five groups (02 (xii)): forms of an initial value, and values written and judged.
use crate::lines::{judged, judged_each, stored};
use crate::records;
use case::Case;

// Records of one thread, one address and no events.
pub fn number_forms(rt: &impl Print) {
    judged_each(
        rt,
        &[
            ("Initial value 80 00", b"\x01\x01\x01\x80\x00\x00\x00\x00"),
            (
                "Initial value 80 80 80 80 00",
                b"\x01\x01\x01\x80\x80\x80\x80\x00\x00\x00\x00",
            ),
            (
                "Initial value 80 80 80 80 80 01",
                b"\x01\x01\x01\x80\x80\x80\x80\x80\x01\x00\x00\x00",
            ),
            (
                "Initial value 80 80 80 80 10",
                b"\x01\x01\x01\x80\x80\x80\x80\x10\x00\x00\x00",
            ),
            (
                "Initial value 80 80 80 80 80 at the end",
                b"\x01\x01\x01\x80\x80\x80\x80\x80",
            ),
            (
                "Initial value 80 80 80 80 at the end",
                b"\x01\x01\x01\x80\x80\x80\x80",
            ),
            (
                "Initial value 80 80 80 at the end",
                b"\x01\x01\x01\x80\x80\x80",
            ),
            ("Initial value 80 80 at the end", b"\x01\x01\x01\x80\x80"),
            (
                "Initial value 80 80 04",
                b"\x01\x01\x01\x80\x80\x04\x00\x00\x00",
            ),
            (
                "Initial value FF FF FF FF 0F",
                b"\x01\x01\x01\xFF\xFF\xFF\xFF\x0F\x00\x00\x00",
            ),
            (
                "Initial value FF FF FF FF 0F in edition 2",
                b"\x02\x01\x01\xFF\xFF\xFF\xFF\x0F\x00\x00\x00\x00",
            ),
        ],
    );
}

// The small record's case with other values.
fn small_with(stored: u32, loaded: u32) -> Case {
    let mut c = litmus::read(&records::SMALL).case;
    c.value[0] = stored;
    c.value[1] = loaded;
    c
}

// A store and a load of a value, written into a buffer of 28 bytes and judged from there.
fn written(rt: &impl Print, value: u32, loaded: u32) {
    let mut space = [0xEEu8; 28];
    let out: &mut [u8] = &mut space;
    let answer = litmus::write(small_with(value, loaded), out, 0);
    stored(
        rt,
        format_args!("Store {value}, load {loaded}, written"),
        answer,
        out,
    );
    judged(rt, "And judged", out);
}

pub fn values_of_every_width(rt: &impl Print) {
    for value in [
        127, 128, 16383, 16384, 2097151, 2097152, 268435455, 268435456, 4294967295,
    ] {
        written(rt, value, value);
    }
    written(rt, 65537, 1);
    written(rt, 4294967295, 2147483647);
}
