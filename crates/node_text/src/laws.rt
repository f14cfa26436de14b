//! The laws of listings.
//!
//! A law is the contract of a function that does nothing: a call brings the law into a proof.
ghost use Rattle.std.specs.Prelude.{◌≡◌, ℕ, List};
ghost use Rattle.node_form.specs.declared.tables.Tables.{Tables};
ghost use Rattle.node_form.specs.Fits.{Fits};
ghost use Rattle.listing_rules.specs.of_listing_lines.Listing.{IsBadLine};
ghost use Rattle.listing_rules.specs.of_listing_rows.Listing.{listing_of};
ghost use Rattle.listing_rules.specs.Room.{HasRoom};
ghost use Rattle.node_text.specs.Listing.{IsBadTable, IsListing};
ghost use Rattle.node_text.specs.Typed.{IsTyped};

/// Reading what is written gives the program: what tables that fit and have room are written as is
/// their listing, where their numbers are those that memory can hold. No other tables have one.
pub fn what_is_written_is_read()
    ensures listed { (tables : Tables) → IsTyped tables → Fits tables → HasRoom tables →
        IsListing (listing_of tables) tables }
    ensures typed { (bytes : List ℕ) (tables : Tables) → IsListing bytes tables → IsTyped tables }
{}

/// Writing what is read gives the bytes.
pub fn what_is_read_is_written_back()
    ensures { (bytes : List ℕ) (tables : Tables) → IsListing bytes tables →
        listing_of tables ≡ bytes }
{}

/// Bytes are the listing of at most one program; if they are one's, they have no fault.
pub fn bytes_have_one_program()
    ensures program { (bytes : List ℕ) (one other : Tables) →
        IsListing bytes one → IsListing bytes other → one ≡ other }
    ensures line { (bytes : List ℕ) (tables : Tables) (number : ℕ) →
        IsListing bytes tables → IsBadLine bytes number → ⊥ }
    ensures table { (bytes : List ℕ) (tables : Tables) (number : ℕ) →
        IsListing bytes tables → IsBadTable bytes number → ⊥ }
{}
