//! Laws of GF files. Each is the contract of a function that does nothing, because the toolchain proves a statement only where
//! the contract of a function names it.
ghost use Rattle.std.specs.Prelude.{◌≡◌, ◌↔◌, ◌<◌, ◌≤◌, ◌<ℤ◌, ◌∷◌, [], ◌++◌, length, ℕ, ℤ, pos, List, Some};
ghost use Rattle.mf_gf.specs.Boxes.{box_of_pixels, join, pixel_box};
ghost use Rattle.mf_gf.specs.Files.{Character, IsPadded, IsShortDx, box_of_all, bytes_so_far, file_of, file_so_far};
ghost use Rattle.mf_gf.specs.Files.{shipment_after, shipments, short_dx, spell_after};
ghost use Rattle.mf_gf.specs.declared.file.FontWords.{FontWords};
ghost use Rattle.mf_gf.specs.FontNumbers.{HasLeastBox, HasPost, IsBeforePost, comment_of};
ghost use Rattle.mf_gf.specs.Numbers.{IsWord, code_count};
ghost use Rattle.mf_gf.specs.Painting.{head_of, pixels_of_character};
ghost use Rattle.mf_gf.specs.Pixels.{IsPixelSet, black};
ghost use Rattle.mf_gf.specs.Pointers.{AreShippable, IsReadBack, post_place};
ghost use Rattle.mf_gf.specs.Spelling.{spell};
ghost use Rattle.mf_rows.specs.Bounds.{IsLeastBox};
ghost use Rattle.mf_rows.specs.Dots.{Dot, IsPicture, weight_at};

/// Painting the bytes of a character gives back exactly its pixels, for every finite set of pixels of the field, every code and
/// every p.
#[tactic(auto, using(crate::proofs::CharactersRead::pixels_of_spell))]
pub fn painted_back()
    ensures { (code : ℕ) (p : ℤ) (ds : List Dot) → code < code_count → IsPixelSet ds
        → pixels_of_character (spell code p ds) ≡ Some ds }
{}

/// The bytes of a character begin with its code, with p, which is the place of the last earlier character with this code or -1,
/// and with the box of its pixels. This holds for every p of four bytes.
pub fn head_read_back()
    ensures { (code : ℕ) (p : ℤ) (ds : List Dot) → code < code_count → IsWord p → IsPixelSet ds
        → head_of (spell code p ds)
        ≡ Some (record { code = pos code; earlier = p; box = box_of_pixels ds }) }
{}

/// The black pixels of a picture are a set of pixels of the field: exactly those of positive weight.
#[tactic(auto, using(crate::proofs::BlackDots::black_at))]
pub fn black_pixels_are_a_set()
    ensures set { (ds : List Dot) → IsPicture ds → IsPixelSet (black ds) }
    ensures which { (ds : List Dot) (x y : ℤ) → IsPicture ds
        → (weight_at (black ds) x y ≡ pos 1) ↔ (pos 0 <ℤ weight_at ds x y) }
{}

/// The box of a character is the least one around its black pixels.
pub fn box_is_least()
    ensures { (d : Dot) (ds : List Dot) → IsLeastBox (d ∷ ds) (pixel_box (box_of_pixels (d ∷ ds))) }
{}

/// An escapement is written in one byte exactly where it is 65536 times that byte.
#[tactic(auto, using(crate::proofs::Escapements::short_dx_is, crate::proofs::Escapements::is_short_dx))]
pub fn short_escapements()
    ensures { (dx : ℤ) (pixels : ℕ) → (short_dx dx ≡ Some pixels) ↔ IsShortDx dx pixels }
{}

/// A file begins with its preamble and its characters. One more character comes after the others, and its p is the place of the
/// last one with its code, or -1 where there is none. It is then the last one with that code, its place is where its bytes begin,
/// and the box of the file, where that had a character, is joined with its own box.
pub fn one_character_more()
    ensures begins { (words : FontWords) (comment : List ℕ) (cs : List Character) → (rest : List ℕ)
        × (file_of words comment cs ≡ bytes_so_far comment cs ++ rest) }
    ensures bytes { (comment : List ℕ) (cs : List Character) (c : Character)
        → bytes_so_far comment (cs ++ c ∷ [])
        ≡ bytes_so_far comment cs ++ spell_after (file_so_far comment cs) c }
    ensures place { (comment : List ℕ) (cs : List Character) (c : Character)
        → shipments comment (cs ++ c ∷ [])
        ≡ shipment_after (bytes_so_far comment cs) c ∷ shipments comment cs }
    ensures bounds { (b : Character) (cs : List Character) (c : Character)
        → box_of_all (b ∷ cs ++ c ∷ []) ≡ join (box_of_all (b ∷ cs)) (box_of_pixels c.black) }
{}

/// A reader of a finished file finds all of its characters. The codes of the locators rise; there is a locator for each code that
/// was shipped, and for no other. Each has the dx, the width and the place of the last character with its code. From there p
/// leads to all characters with the code, from the last to the first, and then to none.
pub fn characters_are_read_back()
    ensures { (words : FontWords) (comment : List ℕ) (cs : List Character) → AreShippable comment cs
        → IsReadBack (file_of words comment cs) cs }
{}

/// A reader of a finished file finds its comment in the preamble, and post, to which the end of the file leads, where post says that it
/// is: after the characters, of which the last ends with its eoc there. Post has the numbers of the font, and the least box around the
/// boxes of all characters.
pub fn numbers_are_read_back()
    ensures preamble { (words : FontWords) (comment : List ℕ) (cs : List Character)
        → comment_of (file_of words comment cs) ≡ Some comment }
    ensures place { (words : FontWords) (comment : List ℕ) (cs : List Character)
        → AreShippable comment cs
        → post_place (file_of words comment cs) ≡ Some (length (bytes_so_far comment cs)) }
    ensures last_eoc { (words : FontWords) (comment : List ℕ) (cs : List Character) (c : Character)
        → AreShippable comment (cs ++ c ∷ [])
        → IsBeforePost (file_of words comment (cs ++ c ∷ [])) c }
    ensures design_size { (words : FontWords) (comment : List ℕ) (cs : List Character)
        → AreShippable comment cs → IsWord words.ds
        → HasPost (file_of words comment cs) (λ post. post.words.ds ≡ words.ds) }
    ensures check_sum { (words : FontWords) (comment : List ℕ) (cs : List Character)
        → AreShippable comment cs → words.cs ≤ 4294967295
        → HasPost (file_of words comment cs) (λ post. post.words.cs ≡ words.cs) }
    ensures horizontal_resolution { (words : FontWords) (comment : List ℕ) (cs : List Character)
        → AreShippable comment cs → IsWord words.hppp
        → HasPost (file_of words comment cs) (λ post. post.words.hppp ≡ words.hppp) }
    ensures vertical_resolution { (words : FontWords) (comment : List ℕ) (cs : List Character)
        → AreShippable comment cs → IsWord words.vppp
        → HasPost (file_of words comment cs) (λ post. post.words.vppp ≡ words.vppp) }
    ensures bounds { (words : FontWords) (comment : List ℕ) (c : Character) (cs : List Character)
        → AreShippable comment (c ∷ cs)
        → HasLeastBox (file_of words comment (c ∷ cs)) (c ∷ cs) }
{}

/// The length of a finished file is a multiple of 4, and the file ends with the identification byte and four to seven bytes 223.
pub fn files_are_padded()
    ensures { (words : FontWords) (comment : List ℕ) (characters : List Character)
        → IsPadded (file_of words comment characters) }
{}
