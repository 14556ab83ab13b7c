//! Laws of the rings alone, over what clauses see of them.

ghost use Rattle.std.specs.Prelude.{◌≡◌, ℕ, List};
ghost use Rattle.rc_entry.specs.declared.Entry.{Entry};
ghost use Rattle.rc_ring.specs.Rings.{Rings, RingCall, empty_rings, Prepares};
ghost use Rattle.rc_ring.specs.Alike.{AreAlike, call_answers, after_calls};

/// The counters that rings are opened at show in places alone: whatever they are, the same calls are answered the
/// same. For such rings are alike but for places, and rings that are so stay so through the same calls, of which a
/// prep of one entry leaves the same bytes in both, and answer them alike.
pub fn counters_show_in_places_alone()
    ensures runs { (calls : List RingCall) (entries completion_entries p q s t : ℕ)
        → call_answers (after_calls calls (empty_rings entries completion_entries p s))
        ≡ call_answers (after_calls calls (empty_rings entries completion_entries q t)) }
    ensures opened { (entries completion_entries p q s t : ℕ)
        → AreAlike (empty_rings entries completion_entries p s)
        (empty_rings entries completion_entries q t) }
    ensures answers { (a b : Rings) → AreAlike a b → call_answers a ≡ call_answers b }
    ensures stays { (calls : List RingCall) (a b : Rings) → AreAlike a b
        → AreAlike (after_calls calls a) (after_calls calls b) }
    ensures preps { (entry : Entry) (a b c d : Rings) → AreAlike a b
        → Prepares a c entry → Prepares b d entry → AreAlike c d }
{}
