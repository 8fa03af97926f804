/// When an ephemeris was sent.
#[repr(C)]
#[derive(Clone, Copy)]
pub struct SentRaw {
    /// 0 if it is not known.
    pub is_known: u32,
    /// So many seconds after the start of the week of its toe, -302,400 to 907,199; not looked at
    /// if it is not known, and 0 then.
    pub second: i32,
}
