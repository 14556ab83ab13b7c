//! Laws of the definitions that serving keeps to, over lists alone.

ghost use Rattle.std.specs.Prelude.{◌≡◌, ◌≢◌, ℕ, ℤ, ◌+◌, ◌<◌, ◌≤◌, max, List, length, slice_index, Some};
ghost use Rattle.rc_device.specs.Files.{DiskFile, read_from, written_to, place_of, content_of, with_content};

/// Where bytes were written, they are read.
pub fn what_was_written_is_read()
    ensures { (content bytes : List ℕ) (off : ℕ)
        → read_from (written_to content off bytes) off (length bytes) ≡ bytes }
{}

/// A write changes no byte before it or after it, where those past a file's end count as 0; the file ends where it
/// ended, or where the write ends if that is later.
pub fn the_rest_of_a_file_stays()
    ensures before { (content bytes : List ℕ) (off i : ℕ) → i < off
        → slice_index (written_to content off bytes) i ≡ slice_index content i }
    ensures after { (content bytes : List ℕ) (off i : ℕ) → off + length bytes ≤ i
        → slice_index (written_to content off bytes) i ≡ slice_index content i }
    ensures end { (content bytes : List ℕ) (off : ℕ) → 0 < length bytes
        → length (written_to content off bytes) ≡ max (length content) (off + length bytes) }
{}

/// Writing one file leaves the others as they were.
pub fn other_files_stay()
    ensures written { (files : List DiskFile) (fd : ℤ) (k : ℕ) (content : List ℕ)
        → place_of files fd ≡ Some k → content_of (with_content files k content) fd ≡ content }
    ensures others { (files : List DiskFile) (fd other : ℤ) (k : ℕ) (content : List ℕ)
        → place_of files fd ≡ Some k → other ≢ fd
        → content_of (with_content files k content) other ≡ content_of files other }
{}
