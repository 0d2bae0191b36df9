//! The laws of the region: every run is sound, each end of a ring has one other end, and what each kind of step does
//! and finds in a sound world.

ghost use Rattle.std.specs.Prelude.{◌≡◌, ◌≢◌, ℕ, ◌+◌, ◌<◌, ◌^◌, true, false, List, [], ◌∷◌, ◌++◌, length, slice_set, Option, Some, None};
ghost use mathlib.Core.Option.{some};
ghost use lib.ListN.{get_elem?};
ghost use Rattle.std.specs.FinMap as fin;
ghost use Rattle.word_map.specs.WordMap.{WordMap, at as word_at, range_of, rest_of, union, numbered, Has, Disjoint, values_from};
ghost use Rattle.ring_rule.specs.Frames.{IsFramed};
ghost use Rattle.ring_rule.specs.Ring.{Ring, Sending, Receiving, AreEnds, place_of, count_word, flag_word};
ghost use Rattle.ring_rule.specs.Ends.{first_sending, first_receiving, looks_read, puts, publishes, sender_leaves, sender_sees_flag, looks_written, looks_last, takes, gives_back, receiver_leaves, receiver_sees_flag};
ghost use Rattle.region_rule.specs.RingMap.{ring_map, IsFresh};
ghost use Rattle.region_rule.specs.View.{View, Own, Frozen, Sender, Receiver, Done, Olds};
ghost use Rattle.region_rule.specs.Sound.{World, Sees, AreWords, OldsApart, Sound};
ghost use Rattle.region_rule.specs.Steps.{Event, Load, Store, Split, Join, Freeze, Share, LoadFrozen, EndShare, Gather, MakeRing, LoadRead, StoreData, StoreWritten, LoadWritten, LoadData, StoreRead, StoreSenderFlag, StoreReceiverFlag, LoadSenderFlag, LoadReceiverFlag, LoadWrittenLast, JoinEnds, LoadDone, EndDone, PartAgain, Happens, Run, opening};
ghost use Rattle.region_rule.specs.Effects.{Turns, Cuts, Joins, WordsStay, SenderTurns, ReceiverTurns, ReceivesFrom, SendsTo};

/// Every list of events from an opening world leads to a sound world.
pub fn sound_always()
    ensures { (words : List ℕ) (events : List Event) (after : World) → AreWords words → Run events (opening words) after → Sound after }
{}

/// In an opening world the one token owns each word, with its value.
pub fn opening_law()
    ensures sound { (words : List ℕ) → AreWords words → Sound (opening words) }
    ensures owns { (words : List ℕ) (k x : ℕ) → get_elem? words k ≡ some x → word_at (numbered 0 words) k ≡ Some x }
{}

/// Each step, of any kind, leads from a sound world to a sound world.
pub fn step_law()
    ensures { (event : Event) (before after : World) → Sound before → Happens event before after → Sound after }
{}

/// Each sender has a receiver, and no ring has two; and each receiver has a sender, and no ring has two.
pub fn partner_law()
    ensures receiver { (w : World) (i : ℕ) (s : Sending) (told : Option Receiving) → Sound w → Sees w i (Sender s told) → (q : Receiving) × ReceivesFrom w s q }
    ensures one_receiver { (w : World) (i j : ℕ) (p q : Receiving) (t u : Option Sending) → Sound w → Sees w i (Receiver p t) → Sees w j (Receiver q u) → p.ring ≡ q.ring → i ≡ j }
    ensures sender { (w : World) (i : ℕ) (q : Receiving) (told : Option Sending) → Sound w → Sees w i (Receiver q told) → (s : Sending) × SendsTo w q s }
    ensures one_sender { (w : World) (i j : ℕ) (r s : Sending) (t u : Option Receiving) → Sound w → Sees w i (Sender r t) → Sees w j (Sender s u) → r.ring ≡ s.ring → i ≡ j }
{}

/// A load by an owner finds the value of its map, and shows that the two maps of its last join had no word in common.
pub fn load_law()
    ensures { (before after : World) (i k x : ℕ) → Sound before → Happens (Load i k x) before after
        → (m : WordMap) × (olds : Olds) × Turns before after i (Own m olds) (Own m None) × WordsStay before after
        × ((y : ℕ) → word_at m k ≡ Some y → x ≡ y) × OldsApart olds }
{}

/// A store by an owner changes one word, which it has, and its map there.
pub fn store_law()
    ensures { (before after : World) (i k x : ℕ) → Sound before → Happens (Store i k x) before after
        → (m : WordMap) × (olds : Olds) × Turns before after i (Own m olds) (Own (fin.insert m k x) olds)
        × (after.words ≡ slice_set before.words k x) × Has m k × (x < 2 ^ 64) }
{}

/// A split gives a range of an owner's words to a new token. Any range will do, even one of whose words it has none.
pub fn split_law()
    ensures { (before after : World) (i from len : ℕ) → Sound before → Happens (Split i from len) before after
        → (m : WordMap) × (olds : Olds) × Cuts before after i (Own m olds) (Own (rest_of m from len) olds) (Own (range_of m from len) None)
        × WordsStay before after }
{}

/// A join gives an owner the words of another, none of which it had.
pub fn join_law()
    ensures { (before after : World) (i j : ℕ) → Sound before → Happens (Join i j) before after
        → (m n : WordMap) × (one other : Olds) × Joins before after i j (Own m one) (Own n other) (Own (union m n) (Some (m, n)))
        × WordsStay before after × Disjoint m n }
{}

/// An owner freezes its words.
pub fn freeze_law()
    ensures { (before after : World) (i k x : ℕ) → Sound before → Happens (Freeze i k x) before after
        → (m : WordMap) × (olds : Olds) × Turns before after i (Own m olds) (Frozen m) × WordsStay before after }
{}

/// A share makes a second token of the same frozen words.
pub fn share_law()
    ensures { (before after : World) (i : ℕ) → Sound before → Happens (Share i) before after
        → (m : WordMap) × Cuts before after i (Frozen m) (Frozen m) (Frozen m) × WordsStay before after }
{}

/// A load of a frozen word finds its value.
pub fn load_frozen_law()
    ensures { (before after : World) (i k x : ℕ) → Sound before → Happens (LoadFrozen i k x) before after
        → (m : WordMap) × Turns before after i (Frozen m) (Frozen m) × WordsStay before after × ((y : ℕ) → word_at m k ≡ Some y → x ≡ y) }
{}

/// Two tokens of the same frozen words become one.
pub fn end_share_law()
    ensures { (before after : World) (i j : ℕ) → Sound before → Happens (EndShare i j) before after
        → (m : WordMap) × Joins before after i j (Frozen m) (Frozen m) (Frozen m) × WordsStay before after }
{}

/// Two tokens of frozen words become one of the words of both.
pub fn gather_law()
    ensures { (before after : World) (i j : ℕ) → Sound before → Happens (Gather i j) before after
        → (m n : WordMap) × Joins before after i j (Frozen m) (Frozen n) (Frozen (union m n)) × WordsStay before after }
{}

/// An owner of just a ring, with both counts and the flag as at the start, becomes its two ends, which have done
/// nothing yet.
pub fn make_ring_law()
    ensures { (before after : World) (i : ℕ) (r : Ring) → Sound before → Happens (MakeRing i r) before after
        → (m : WordMap) × (olds : Olds)
        × Cuts before after i (Own m olds) (Sender (first_sending r (values_from m (r.base + 3) r.size)) None) (Receiver (first_receiving r) None)
        × WordsStay before after × IsFresh m r }
{}

/// The sender finds how many words the receiver has given back.
pub fn load_read_law()
    ensures { (before after : World) (i x : ℕ) → Sound before → Happens (LoadRead i x) before after
        → (s : Sending) × (q : Receiving) × SenderTurns before after i s (looks_read s q.returned) × WordsStay before after
        × (s.gone ≡ false) × ReceivesFrom before s q × (x ≡ count_word q.ring q.returned) }
{}

/// The sender, which has room, stores the next word of a frame in its cell.
pub fn store_data_law()
    ensures { (before after : World) (i x : ℕ) → Sound before → Happens (StoreData i x) before after
        → (s : Sending) × SenderTurns before after i s (puts s x) × (after.words ≡ slice_set before.words (place_of s.ring (length s.put)) x)
        × (s.gone ≡ false) × (length s.put < s.room + s.ring.size) × IsFramed s.ring.max (s.put ++ x ∷ []) × (x < 2 ^ 64) }
{}

/// The sender publishes all that it has put.
pub fn store_written_law()
    ensures { (before after : World) (i : ℕ) → Sound before → Happens (StoreWritten i) before after
        → (s : Sending) × SenderTurns before after i s (publishes s)
        × (after.words ≡ slice_set before.words s.ring.base (count_word s.ring (length s.put))) × (s.gone ≡ false) }
{}

/// The receiver, which has not found the flag set, finds how many words the sender has published.
pub fn load_written_law()
    ensures { (before after : World) (i x : ℕ) → Sound before → Happens (LoadWritten i x) before after
        → (q : Receiving) × (s : Sending) × ReceiverTurns before after i q (looks_written q s.published) × WordsStay before after
        × (q.gone ≡ false) × (q.flag_value ≢ 1) × SendsTo before q s × (x ≡ count_word s.ring s.published) }
{}

/// The receiver finds the same number after it has found the flag set: the sender is gone, and this is all that it ever
/// publishes.
pub fn load_last_law()
    ensures { (before after : World) (i x : ℕ) → Sound before → Happens (LoadWrittenLast i x) before after
        → (q : Receiving) × (s : Sending) × ReceiverTurns before after i q (looks_last q s.published) × WordsStay before after
        × (q.gone ≡ false) × (q.flag_value ≡ 1) × SendsTo before q s × (x ≡ count_word s.ring s.published) × (s.gone ≡ true) }
{}

/// The receiver, which has seen that there is one, takes the next word that was put.
pub fn load_data_law()
    ensures { (before after : World) (i x : ℕ) → Sound before → Happens (LoadData i x) before after
        → (q : Receiving) × (s : Sending) × ReceiverTurns before after i q (takes q x) × WordsStay before after
        × (q.gone ≡ false) × (length q.taken < q.avail) × SendsTo before q s × (get_elem? s.put (length q.taken) ≡ some x) }
{}

/// The receiver gives all that it has taken back.
pub fn store_read_law()
    ensures { (before after : World) (i : ℕ) → Sound before → Happens (StoreRead i) before after
        → (q : Receiving) × ReceiverTurns before after i q (gives_back q)
        × (after.words ≡ slice_set before.words (q.ring.base + 1) (count_word q.ring (length q.taken))) × (q.gone ≡ false) }
{}

/// An end that has not set the flag sets it.
pub fn store_flag_law()
    ensures sender { (before after : World) (i : ℕ) → Sound before → Happens (StoreSenderFlag i) before after
        → (s : Sending) × SenderTurns before after i s (sender_leaves s) × (after.words ≡ slice_set before.words (s.ring.base + 2) 1) × (s.gone ≡ false) }
    ensures receiver { (before after : World) (i : ℕ) → Sound before → Happens (StoreReceiverFlag i) before after
        → (q : Receiving) × ReceiverTurns before after i q (receiver_leaves q) × (after.words ≡ slice_set before.words (q.ring.base + 2) 1) × (q.gone ≡ false) }
{}

/// An end that has not set the flag finds in it whether the other end has.
pub fn load_flag_law()
    ensures sender { (before after : World) (i x : ℕ) → Sound before → Happens (LoadSenderFlag i x) before after
        → (s : Sending) × (q : Receiving) × SenderTurns before after i s (sender_sees_flag s x) × WordsStay before after
        × (s.gone ≡ false) × ReceivesFrom before s q × (x ≡ flag_word q.gone) }
    ensures receiver { (before after : World) (i x : ℕ) → Sound before → Happens (LoadReceiverFlag i x) before after
        → (q : Receiving) × (s : Sending) × ReceiverTurns before after i q (receiver_sees_flag q x) × WordsStay before after
        × (q.gone ≡ false) × SendsTo before q s × (x ≡ flag_word s.gone) }
{}

/// The two ends of a ring are joined, and what holds of both ends holds of their last views.
pub fn join_ends_law()
    ensures { (before after : World) (i j : ℕ) → Sound before → Happens (JoinEnds i j) before after
        → (s : Sending) × (t : Option Receiving) × (q : Receiving) × (u : Option Sending)
        × Joins before after i j (Sender s t) (Receiver q u) (Done (ring_map s q) s q) × WordsStay before after × AreEnds s q }
{}

/// A load by the joined ends shows what holds of them.
pub fn load_done_law()
    ensures { (before after : World) (i k x : ℕ) → Sound before → Happens (LoadDone i k x) before after
        → (m : WordMap) × (s : Sending) × (q : Receiving) × Turns before after i (Done m s q) (Done m s q) × WordsStay before after × AreEnds s q }
{}

/// The joined ends become the owner of the ring's words.
pub fn end_done_law()
    ensures { (before after : World) (i k x : ℕ) → Sound before → Happens (EndDone i k x) before after
        → (m : WordMap) × (s : Sending) × (q : Receiving) × Turns before after i (Done m s q) (Own m None) × WordsStay before after × (m ≡ ring_map s q) }
{}

/// The joined ends part, as they were, and each learns what the other was.
pub fn part_again_law()
    ensures { (before after : World) (i : ℕ) → Sound before → Happens (PartAgain i) before after
        → (m : WordMap) × (s : Sending) × (q : Receiving) × Cuts before after i (Done m s q) (Sender s (Some q)) (Receiver q (Some s)) × WordsStay before after }
{}
