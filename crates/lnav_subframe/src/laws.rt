ghost use Rattle.std.specs.Prelude.{◌≡◌, ℕ, ◌<◌, ◌^◌, ◌↔◌, List, Ok, Err};
ghost use Rattle.nav_eph.specs.Conditions.{IsPart};
ghost use Rattle.nav_eph.specs.Values.{HasBodyRanges, IsPartValue};
ghost use Rattle.nav_eph.specs.declared.sat.System.TheVariants.{Gps};
ghost use Rattle.nav_eph.specs.Satellite.{Satellite};
ghost use Rattle.nav_eph.specs.declared.part.Part.{Part};
ghost use Rattle.lnav_subframe.specs.declared.fault.LnavFault.{LnavFault};
ghost use Rattle.lnav_subframe.specs.declared.out.SubframeOut.{SubframeOut};
ghost use Rattle.nav_bits.specs.Packed.{AreBytes};
ghost use Rattle.lnav_subframe.specs.Bytes.{HasBits, subframe_bytes};
ghost use Rattle.lnav_subframe.specs.Faults.{IsFirstFault};
ghost use Rattle.lnav_subframe.specs.Reading.{StandsFor, heard, subframe_of};
ghost use Rattle.lnav_subframe.specs.Writing.{AllReadAs, HasTime, IsWritable, IsWritten};
ghost use Rattle.lnav_subframe.specs.Writing.{read_again};

/// A written subframe is read with the same fields and with the second of the week at which it
/// starts; an unused page is rejected as `Unused` with its number and page.
pub fn written_is_read()
    ensures { (body : SubframeOut) (tow_count : ℕ) (bits : List ℕ) →
        tow_count < 100800 → IsWritable body → HasTime body →
        IsWritten body tow_count bits → AllReadAs bits (read_again body tow_count) }
{}

/// The bits are read as a part exactly if they encode it.
pub fn subframe_function()
    ensures { (bits : List ℕ) (sat : Satellite) (stamp : ℕ) (part : Part) →
        (subframe_of bits sat stamp ≡ Ok part) ↔ StandsFor bits sat stamp part }
{}

/// Bits are rejected with an error exactly if it is the first error of the subframe.
pub fn refused_by_the_first_fault()
    ensures { (bits : List ℕ) (sat : Satellite) (stamp : ℕ) (fault : LnavFault) →
        (subframe_of bits sat stamp ≡ Err fault) ↔ IsFirstFault bits fault }
{}

/// A part that is read has the time tag and satellite given, has a body that a GPS satellite sends,
/// and has its fields within their widths in bits.
pub fn subframe_parts()
    ensures stamp { (bits : List ℕ) (sat : Satellite) (stamp : ℕ) (part : Part) →
        subframe_of bits sat stamp ≡ Ok part → part.stamp ≡ stamp }
    ensures satellite { (bits : List ℕ) (sat : Satellite) (stamp : ℕ) (part : Part) →
        subframe_of bits sat stamp ≡ Ok part → part.sat ≡ sat }
    ensures sendable { (bits : List ℕ) (sat : Satellite) (stamp : ℕ) (part : Part) →
        sat.system ≡ Gps → subframe_of bits sat stamp ≡ Ok part → IsPart part.sat part.body }
    ensures value { (bits : List ℕ) (sat : Satellite) (stamp : ℕ) (part : Part) →
        stamp < 2 ^ 32 → subframe_of bits sat stamp ≡ Ok part → IsPartValue part }
    ensures ranges { (bits : List ℕ) (sat : Satellite) (stamp : ℕ) (part : Part) →
        subframe_of bits sat stamp ≡ Ok part → HasBodyRanges part.body }
{}

/// `subframe_bytes` gives the only 38 bytes in which a subframe is written with a TOW count.
pub fn subframes_are_the_function()
    ensures { (body : SubframeOut) (tow_count : ℕ) (bits : List ℕ) → HasBits body
        → tow_count < 100800 →
        AreBytes 38 bits → IsWritten body tow_count bits → bits ≡ subframe_bytes body tow_count }
{}

/// The bytes of `subframe_bytes` are a subframe with these fields and this TOW count, and reading
/// them gives these fields.
pub fn subframe_bytes_are_written()
    ensures written { (body : SubframeOut) (tow_count : ℕ) → HasBits body → tow_count < 100800 →
        IsWritten body tow_count (subframe_bytes body tow_count) }
    ensures size { (body : SubframeOut) (tow_count : ℕ)
        → AreBytes 38 (subframe_bytes body tow_count) }
    ensures read { (body : SubframeOut) (tow_count : ℕ) (sat : Satellite) (stamp : ℕ) →
        HasBits body → tow_count < 100800 → IsWritable body →
        subframe_of (subframe_bytes body tow_count) sat stamp ≡
        heard sat stamp (read_again body tow_count) }
{}
