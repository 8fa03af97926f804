ghost use Rattle.std.specs.Prelude.{◌≡◌, ℕ, ◌<◌, ◌^◌};
ghost use Rattle.std.specs.Prelude.{◌↔◌, List, All, Ok, Err};
ghost use Rattle.nav_eph.specs.Weeks.{IsSecond};
ghost use Rattle.nav_bits.specs.Fields.{StandFrom};
ghost use Rattle.nav_bits.specs.Packed.{AreBytes, ZerosFrom};
ghost use Rattle.nav_eph.specs.Bodies.{IsGalHealth, IsGalIon};
ghost use Rattle.nav_eph.specs.Conditions.{IsPart};
ghost use Rattle.nav_eph.specs.Ranges.{IsGalWord1, IsGalWord2, IsGalWord3, IsGalWord4};
ghost use Rattle.nav_eph.specs.Values.{HasBodyRanges, IsPartValue};
ghost use Rattle.nav_eph.specs.Satellite.{Satellite};
ghost use Rattle.nav_eph.specs.Steps.{IsSisa, IsStep60};
ghost use Rattle.nav_eph.specs.declared.galileo.GalWord1.{GalWord1};
ghost use Rattle.nav_eph.specs.declared.galileo.GalWord2.{GalWord2};
ghost use Rattle.nav_eph.specs.declared.galileo.GalWord3.{GalWord3};
ghost use Rattle.nav_eph.specs.declared.galileo.GalWord4.{GalWord4};
ghost use Rattle.nav_eph.specs.declared.galileo.GalHealth.{GalHealth};
ghost use Rattle.nav_eph.specs.declared.ion.GalIon.{GalIon};
ghost use Rattle.nav_eph.specs.declared.part.Body.TheVariants.{GalW1, GalW2, GalW3, GalW4};
ghost use Rattle.inav.specs.declared.word_fault.WordFault.{WordFault};
ghost use Rattle.inav.specs.Faults.{IsFirstFault};
ghost use Rattle.inav.specs.Reading.{all_parts, one_part, reading_of, two_parts, word_in};
ghost use Rattle.inav.specs.declared.parts.WordParts.{WordParts};
ghost use Rattle.nav_eph.specs.declared.sat.System.TheVariants.{Gal};
ghost use Rattle.inav.specs.Words.{fields_word1, fields_word2, fields_word3};
ghost use Rattle.inav.specs.Words.{fields_word4, fields_word5};
ghost use Rattle.inav.specs.Writing.{word1_bytes, word2_bytes, word3_bytes};
ghost use Rattle.inav.specs.Writing.{word4_bytes, word5_bytes};
ghost use Rattle.inav.specs.Writing.{written_word1, written_word2, written_word3};
ghost use Rattle.inav.specs.Writing.{written_word4, written_word5};

/// Bits that hold the fields of word type 1 are read as these fields.
pub fn written_word1_is_read()
    ensures { (w : GalWord1) (bits : List ℕ) (sat : Satellite) (stamp : ℕ) →
        IsStep60 w.toe → StandFrom bits 0 0 (fields_word1 (written_word1 w)) →
        reading_of bits sat stamp ≡ Ok (one_part sat stamp (GalW1 w)) }
{}

/// Bits that hold the fields of word type 2 are read as these fields.
pub fn written_word2_is_read()
    ensures { (w : GalWord2) (bits : List ℕ) (sat : Satellite) (stamp : ℕ) →
        StandFrom bits 0 0 (fields_word2 (written_word2 w)) →
        reading_of bits sat stamp ≡ Ok (one_part sat stamp (GalW2 w)) }
{}

/// Bits that hold the fields of word type 3 are read as these fields.
pub fn written_word3_is_read()
    ensures { (w : GalWord3) (bits : List ℕ) (sat : Satellite) (stamp : ℕ) →
        IsSisa w.sisa → StandFrom bits 0 0 (fields_word3 (written_word3 w)) →
        reading_of bits sat stamp ≡ Ok (one_part sat stamp (GalW3 w)) }
{}

/// Bits that hold the fields of word type 4 of a satellite are read as these fields, if that
/// satellite sends them.
pub fn written_word4_is_read()
    ensures { (w : GalWord4) (bits : List ℕ) (sat : Satellite) (stamp : ℕ) →
        IsStep60 w.toc → StandFrom bits 0 0 (fields_word4 (written_word4 w sat.number)) →
        reading_of bits sat stamp ≡ Ok (one_part sat stamp (GalW4 w)) }
{}

/// Bits that hold the fields of word type 5 are read as these fields, with week number and TOW.
pub fn written_word5_is_read()
    ensures { (h : GalHealth) (i : GalIon) (wn second : ℕ) (bits : List ℕ) (sat : Satellite)
        (stamp : ℕ) →
        IsSecond second → StandFrom bits 0 0 (fields_word5 (written_word5 h i wn second)) →
        reading_of bits sat stamp ≡ Ok (two_parts sat stamp h i wn second) }
{}

/// Bits read as word type 1 hold these fields, apart from reserved bits, and toe is within the
/// week.
pub fn read_word1_is_written()
    ensures { (w : GalWord1) (bits : List ℕ) (sat : Satellite) (stamp : ℕ) →
        reading_of bits sat stamp ≡ Ok (one_part sat stamp (GalW1 w)) →
        IsStep60 w.toe × StandFrom bits 0 0 (fields_word1 (written_word1 w)) }
{}

/// Bits read as word type 2 hold these fields, apart from reserved bits.
pub fn read_word2_is_written()
    ensures { (w : GalWord2) (bits : List ℕ) (sat : Satellite) (stamp : ℕ) →
        reading_of bits sat stamp ≡ Ok (one_part sat stamp (GalW2 w)) →
        StandFrom bits 0 0 (fields_word2 (written_word2 w)) }
{}

/// Bits read as word type 3 hold these fields, and the SISA index is not a spare value.
pub fn read_word3_is_written()
    ensures { (w : GalWord3) (bits : List ℕ) (sat : Satellite) (stamp : ℕ) →
        reading_of bits sat stamp ≡ Ok (one_part sat stamp (GalW3 w)) →
        IsSisa w.sisa × StandFrom bits 0 0 (fields_word3 (written_word3 w)) }
{}

/// Bits read as word type 4 hold these fields and the SVID of the sending satellite, apart from
/// spare bits, and toc is within the week.
pub fn read_word4_is_written()
    ensures { (w : GalWord4) (bits : List ℕ) (sat : Satellite) (stamp : ℕ) →
        reading_of bits sat stamp ≡ Ok (one_part sat stamp (GalW4 w)) →
        IsStep60 w.toc × StandFrom bits 0 0 (fields_word4 (written_word4 w sat.number)) }
{}

/// Bits read as word type 5 hold these fields, apart from spare bits, and TOW is within the week.
pub fn read_word5_is_written()
    ensures { (h : GalHealth) (i : GalIon) (wn second : ℕ) (bits : List ℕ) (sat : Satellite)
        (stamp : ℕ) →
        reading_of bits sat stamp ≡ Ok (two_parts sat stamp h i wn second) →
        IsSecond second × StandFrom bits 0 0 (fields_word5 (written_word5 h i wn second)) }
{}

/// Bits are rejected with an error exactly if it is the first error of their word.
pub fn refused_by_the_first_fault()
    ensures { (bits : List ℕ) (sat : Satellite) (stamp : ℕ) (fault : WordFault) →
        (reading_of bits sat stamp ≡ Err fault) ↔ IsFirstFault sat (word_in bits) fault }
{}

/// The bytes of a word hold the fields of its table, and 0 in reserved bits.
pub fn word_bytes()
    ensures word1 { (w : GalWord1) → IsGalWord1 w →
        StandFrom (word1_bytes w) 0 0 (fields_word1 (written_word1 w)) }
    ensures zeros1 { (w : GalWord1) → IsGalWord1 w →
        ZerosFrom (word1_bytes w) 0 0 (fields_word1 (written_word1 w)) }
    ensures size1 { (w : GalWord1) → AreBytes 16 (word1_bytes w) }
    ensures word2 { (w : GalWord2) → IsGalWord2 w →
        StandFrom (word2_bytes w) 0 0 (fields_word2 (written_word2 w)) }
    ensures zeros2 { (w : GalWord2) → IsGalWord2 w →
        ZerosFrom (word2_bytes w) 0 0 (fields_word2 (written_word2 w)) }
    ensures size2 { (w : GalWord2) → AreBytes 16 (word2_bytes w) }
    ensures word3 { (w : GalWord3) → IsGalWord3 w →
        StandFrom (word3_bytes w) 0 0 (fields_word3 (written_word3 w)) }
    ensures zeros3 { (w : GalWord3) → IsGalWord3 w →
        ZerosFrom (word3_bytes w) 0 0 (fields_word3 (written_word3 w)) }
    ensures size3 { (w : GalWord3) → AreBytes 16 (word3_bytes w) }
    ensures word4 { (w : GalWord4) (svid : ℕ) → IsGalWord4 w → svid < 64 →
        StandFrom (word4_bytes w svid) 0 0 (fields_word4 (written_word4 w svid)) }
    ensures zeros4 { (w : GalWord4) (svid : ℕ) → IsGalWord4 w → svid < 64 →
        ZerosFrom (word4_bytes w svid) 0 0 (fields_word4 (written_word4 w svid)) }
    ensures size4 { (w : GalWord4) (svid : ℕ) → AreBytes 16 (word4_bytes w svid) }
    ensures word5 { (h : GalHealth) (i : GalIon) (wn second : ℕ) → IsGalHealth h → IsGalIon i →
        wn < 4096 → IsSecond second →
        StandFrom (word5_bytes h i wn second) 0 0 (fields_word5 (written_word5 h i wn second)) }
    ensures zeros5 { (h : GalHealth) (i : GalIon) (wn second : ℕ) → IsGalHealth h → IsGalIon i →
        wn < 4096 → IsSecond second →
        ZerosFrom (word5_bytes h i wn second) 0 0 (fields_word5 (written_word5 h i wn second)) }
    ensures size5 { (h : GalHealth) (i : GalIon) (wn second : ℕ) →
        AreBytes 16 (word5_bytes h i wn second) }
{}

/// The bytes that hold the table of a word, with 0 in reserved bits, are unique.
pub fn words_are_the_functions()
    ensures word1 { (w : GalWord1) (bits : List ℕ) → IsGalWord1 w → AreBytes 16 bits →
        StandFrom bits 0 0 (fields_word1 (written_word1 w)) →
        ZerosFrom bits 0 0 (fields_word1 (written_word1 w)) → bits ≡ word1_bytes w }
    ensures word2 { (w : GalWord2) (bits : List ℕ) → IsGalWord2 w → AreBytes 16 bits →
        StandFrom bits 0 0 (fields_word2 (written_word2 w)) →
        ZerosFrom bits 0 0 (fields_word2 (written_word2 w)) → bits ≡ word2_bytes w }
    ensures word3 { (w : GalWord3) (bits : List ℕ) → IsGalWord3 w → AreBytes 16 bits →
        StandFrom bits 0 0 (fields_word3 (written_word3 w)) →
        ZerosFrom bits 0 0 (fields_word3 (written_word3 w)) → bits ≡ word3_bytes w }
    ensures word4 { (w : GalWord4) (svid : ℕ) (bits : List ℕ) → IsGalWord4 w → svid < 64 →
        AreBytes 16 bits →
        StandFrom bits 0 0 (fields_word4 (written_word4 w svid)) →
        ZerosFrom bits 0 0 (fields_word4 (written_word4 w svid)) → bits ≡ word4_bytes w svid }
    ensures word5 { (h : GalHealth) (i : GalIon) (wn second : ℕ) (bits : List ℕ) →
        IsGalHealth h → IsGalIon i → wn < 4096 → IsSecond second → AreBytes 16 bits →
        StandFrom bits 0 0 (fields_word5 (written_word5 h i wn second)) →
        ZerosFrom bits 0 0 (fields_word5 (written_word5 h i wn second)) →
        bits ≡ word5_bytes h i wn second }
{}

/// The parts of a word have the time tag and satellite given, have bodies that a Galileo satellite
/// sends, and have their fields within their widths in bits.
pub fn word_parts()
    ensures stamps { (bits : List ℕ) (sat : Satellite) (stamp : ℕ) (parts : WordParts) →
        reading_of bits sat stamp ≡ Ok parts → All (λ part. part.stamp ≡ stamp) (all_parts parts) }
    ensures satellites { (bits : List ℕ) (sat : Satellite) (stamp : ℕ) (parts : WordParts) →
        reading_of bits sat stamp ≡ Ok parts → All (λ part. part.sat ≡ sat) (all_parts parts) }
    ensures sendable { (bits : List ℕ) (sat : Satellite) (stamp : ℕ) (parts : WordParts) →
        sat.system ≡ Gal → reading_of bits sat stamp ≡ Ok parts →
        All (λ part. IsPart part.sat part.body) (all_parts parts) }
    ensures values { (bits : List ℕ) (sat : Satellite) (stamp : ℕ) (parts : WordParts) →
        stamp < 2 ^ 32 → reading_of bits sat stamp ≡ Ok parts → All IsPartValue (all_parts parts) }
    ensures ranges { (bits : List ℕ) (sat : Satellite) (stamp : ℕ) (parts : WordParts) →
        reading_of bits sat stamp ≡ Ok parts →
        All (λ part. HasBodyRanges part.body) (all_parts parts) }
{}
