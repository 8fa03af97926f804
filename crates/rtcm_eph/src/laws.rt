ghost use Rattle.std.specs.Prelude.{◌≡◌, ℕ, ◌<◌, ◌^◌};
ghost use Rattle.std.specs.Prelude.{◌↔◌, List, All, IfOk, length, take};
ghost use Rattle.std.specs.Prelude.{Result, Ok, Err};
ghost use Rattle.nav_bits.specs.Bits.{bit, number_at};
ghost use Rattle.nav_bits.specs.Fields.{StandFrom};
ghost use Rattle.nav_bits.specs.Packed.{AreBytes as AreSoManyBytes, ZerosFrom};
ghost use Rattle.nav_eph.specs.Conditions.{IsPart};
ghost use Rattle.nav_eph.specs.Ranges.{HasGalRanges, HasGpsRanges, IsItem};
ghost use Rattle.nav_eph.specs.Values.{HasPartRanges, IsPartValue};
ghost use Rattle.nav_eph.specs.declared.items.GpsEph.{GpsEph};
ghost use Rattle.nav_eph.specs.declared.items.GalEph.{GalEph};
ghost use Rattle.nav_eph.specs.declared.items.NavItem.{NavItem};
ghost use Rattle.nav_eph.specs.declared.items.NavItem.TheVariants.{Gps, Gal};
ghost use Rattle.nav_eph.specs.declared.items.SentSecond.TheVariants.{Unknown};
ghost use Rattle.rtcm_eph.specs.declared.fault.MessageFault.{MessageFault};
ghost use Rattle.rtcm_eph.specs.declared.message1019.Message1019.{Message1019};
ghost use Rattle.rtcm_eph.specs.declared.message1046.Message1046.{Message1046};
ghost use Rattle.rtcm_eph.specs.Faults.{IsFirstFault};
ghost use Rattle.rtcm_eph.specs.Messages.{fields_1019, fields_1046, message1019_at, message1046_at};
ghost use Rattle.rtcm_eph.specs.declared.read.MessageParts.{MessageParts};
ghost use Rattle.rtcm_eph.specs.Reading.{GivesItem, all_parts, content_of, item_in, parts_of};
ghost use Rattle.rtcm_eph.specs.Writing.{bytes_1019, bytes_1046, message_1019, message_1046};
ghost use Rattle.rtcm_eph.specs.RoundTrip.{AreBytes, Begins1019, Begins1046, IsGal, IsGps};
ghost use Rattle.nav_eph.specs.Weeks.{IsNearGalileo, IsNearGps, IsReference};

/// If the fields of message 1019 are in some bits, reading at their bit offsets gives these fields.
pub fn one_message_1019()
    ensures { (bits : List ℕ) (at : ℕ) (m : Message1019) →
        StandFrom bits at 0 (fields_1019 m) → m ≡ message1019_at bits at }
{}

/// If the fields of message 1046 are in some bits, reading at their bit offsets gives these fields.
pub fn one_message_1046()
    ensures { (bits : List ℕ) (at : ℕ) (m : Message1046) →
        StandFrom bits at 0 (fields_1046 m) → m ≡ message1046_at bits at }
{}

/// A GPS ephemeris that is sent as message 1019, its week near the reference week, is read back
/// equal but for the transmission time.
pub fn sent_1019_is_read()
    ensures { (e : GpsEph) (payload : List ℕ) (r : ℕ) (answer : Result NavItem MessageFault) →
        IsGps e → IsNearGps r e.toe_week → Begins1019 payload e →
        GivesItem r (content_of payload) answer →
        answer ≡ Ok (Gps (record e { sent = Unknown })) }
{}

/// A Galileo ephemeris that is sent as message 1046, its week near the reference week, is read back
/// equal but for the transmission time.
pub fn sent_1046_is_read()
    ensures { (e : GalEph) (payload : List ℕ) (r : ℕ) (answer : Result NavItem MessageFault) →
        IsGal e → IsNearGalileo r e.toe_week → Begins1046 payload e →
        GivesItem r (content_of payload) answer →
        answer ≡ Ok (Gal (record e { sent = Unknown })) }
{}

/// A payload that is read as a GPS ephemeris begins with the 61 bytes that are sent for it.
pub fn read_1019_is_sent()
    ensures { (e : GpsEph) (payload sent : List ℕ) (r : ℕ) →
        AreBytes payload → AreBytes sent → GivesItem r (content_of payload) (Ok (Gps e)) →
        Begins1019 sent e → length sent ≡ 61 → take 61 payload ≡ sent }
{}

/// A payload that is read as a Galileo ephemeris begins with the 63 bytes that are sent for it, but
/// for the two reserved bits at their end.
pub fn read_1046_is_sent()
    ensures { (e : GalEph) (payload sent : List ℕ) (r : ℕ) →
        GivesItem r (content_of payload) (Ok (Gal e)) → Begins1046 sent e →
        (i : ℕ) → i < 502 → bit payload i ≡ bit sent i }
{}

/// The bytes of a message have its fields in order, and the reserved bits are 0.
pub fn message_bytes()
    ensures fields_1019 { (e : GpsEph) → HasGpsRanges e →
        StandFrom (bytes_1019 e) 0 0 (fields_1019 (message_1019 e)) }
    ensures fields_1046 { (e : GalEph) → HasGalRanges e →
        StandFrom (bytes_1046 e) 0 0 (fields_1046 (message_1046 e)) }
    ensures zeros_1046 { (e : GalEph) → HasGalRanges e →
        ZerosFrom (bytes_1046 e) 0 0 (fields_1046 (message_1046 e)) }
    ensures size_1019 { (e : GpsEph) → AreSoManyBytes 61 (bytes_1019 e) }
    ensures size_1046 { (e : GalEph) → AreSoManyBytes 63 (bytes_1046 e) }
{}

/// No other 61 or 63 bytes have these fields in order with reserved bits 0.
pub fn messages_are_the_functions()
    ensures message_1019 { (e : GpsEph) (bits : List ℕ) → HasGpsRanges e → AreSoManyBytes 61 bits →
        StandFrom bits 0 0 (fields_1019 (message_1019 e)) →
        ZerosFrom bits 0 0 (fields_1019 (message_1019 e)) → bits ≡ bytes_1019 e }
    ensures message_1046 { (e : GalEph) (bits : List ℕ) → HasGalRanges e → AreSoManyBytes 63 bits →
        StandFrom bits 0 0 (fields_1046 (message_1046 e)) →
        ZerosFrom bits 0 0 (fields_1046 (message_1046 e)) → bits ≡ bytes_1046 e }
{}

/// `read_item` gives `item_in`; an item that it gives is consistent, each field within its width.
pub fn item_function()
    ensures answer { (r : ℕ) (payload : List ℕ) → IsReference r →
        GivesItem r (content_of payload) (item_in r payload) }
    ensures only { (r : ℕ) (payload : List ℕ) (answer : Result NavItem MessageFault) →
        GivesItem r (content_of payload) answer → answer ≡ item_in r payload }
    ensures whole { (r : ℕ) (payload : List ℕ) → IsReference r → IfOk (item_in r payload) IsItem }
{}

/// The parts of a message have the given time tag and a satellite of the message's system, fit that
/// satellite, and have each field within its width.
pub fn message_parts()
    ensures stamps { (payload : List ℕ) (stamp : ℕ) (parts : MessageParts) →
        parts_of stamp (content_of payload) ≡ Ok parts →
        All (λ part. part.stamp ≡ stamp) (all_parts parts) }
    ensures sendable { (payload : List ℕ) (stamp : ℕ) (parts : MessageParts) →
        parts_of stamp (content_of payload) ≡ Ok parts →
        All (λ part. IsPart part.sat part.body) (all_parts parts) }
    ensures values { (payload : List ℕ) (stamp : ℕ) (parts : MessageParts) → stamp < 2 ^ 32 →
        parts_of stamp (content_of payload) ≡ Ok parts → All IsPartValue (all_parts parts) }
    ensures ranges { (payload : List ℕ) (stamp : ℕ) (parts : MessageParts) →
        parts_of stamp (content_of payload) ≡ Ok parts → All HasPartRanges (all_parts parts) }
{}

/// A payload is rejected with the first error that it has, in the order of `MessageFault`.
pub fn refused_by_the_first_fault()
    ensures content { (payload : List ℕ) (fault : MessageFault) →
        (content_of payload ≡ Err fault) ↔ IsFirstFault payload fault }
    ensures parts { (stamp : ℕ) (payload : List ℕ) (fault : MessageFault) →
        (parts_of stamp (content_of payload) ≡ Err fault) ↔ IsFirstFault payload fault }
    ensures item { (r : ℕ) (payload : List ℕ) (fault : MessageFault) →
        (item_in r payload ≡ Err fault) ↔ IsFirstFault payload fault }
{}
