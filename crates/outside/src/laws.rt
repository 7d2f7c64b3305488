// Worked examples of the definitions: each is the contract of a function without arguments and with an empty body.

ghost use Rattle.std.specs.Prelude.{◌≡◌, ◌-◌, ◌^◌, ℕ, List, [], ◌∷◌, Result, codes};
ghost use Rattle.outside.specs.Library.{failed_after};
ghost use Rattle.outside.specs.Memory.{bytes_listed, bytes_or_empty, count_after, load_within, numbered_load};
ghost use Rattle.outside.specs.MemSink.{numbered_write};
ghost use Rattle.outside.specs.Sink.{with_bytes};
ghost use Rattle.outside.specs.Examples.{three_files, DeliversBy};
ghost use Rattle.outside.specs.declared.fault.LoadFault.TheVariants as load;
ghost use Rattle.outside.specs.declared.fault.SinkFault.{SinkFault};
ghost use Rattle.outside.specs.declared.fault.SinkFault.TheVariants as sink;

/// Files in memory: of two with one name the first counts, and a name that isn't listed may be an empty
/// file.
pub fn file_examples()
    ensures first_counts { bytes_listed three_files (codes "a") ≡ Some (codes "abc") }
    ensures not_listed { bytes_listed three_files (codes "b") ≡ None }
    ensures empty { bytes_or_empty three_files (codes "b") ≡ Some [] }
{}

/// Loads: as many bytes as the limit are given, the calls with chosen numbers fail, and the failed name
/// changes only where a load failed.
pub fn load_examples()
    ensures at_the_limit { load_within 3 (Some (codes "abc")) ≡ Ok (codes "abc") }
    ensures over_the_limit { load_within 2 (Some (codes "abc")) ≡ Err load.TooLong }
    ensures chosen { numbered_load (2 ∷ 4 ∷ []) 4 9 (Some (codes "abc")) ≡ Err load.Failed }
    ensures not_chosen { numbered_load (2 ∷ 4 ∷ []) 3 9 (Some (codes "abc")) ≡ Ok (codes "abc") }
    ensures counts_stop { count_after (2 ^ 64 - 1) ≡ 2 ^ 64 - 1 }
    ensures failed_name { failed_after {T = List ℕ} (codes "b") (Err load.Failed) (Some (codes "a"))
        ≡ Some (codes "b") }
    ensures name_stays { failed_after {T = List ℕ} (codes "b") (Err load.TooLong) (Some (codes "a"))
        ≡ Some (codes "a") }
{}

/// Writes: of ten bytes the most a call are taken, or those for which there is room.
pub fn write_examples()
    ensures most_a_call { numbered_write [] 1 4 100 10 ≡ Ok 4 }
    ensures room_left { numbered_write [] 1 4 3 10 ≡ Ok 3 }
    ensures no_room { numbered_write [] 1 4 0 10 ≡ Err sink.Failed }
    ensures chosen { numbered_write (1 ∷ []) 1 4 100 10 ≡ Err sink.Failed }
    ensures appended { with_bytes (Some (codes "ab")) (codes "c") ≡ Some (codes "abc") }
    ensures untold { with_bytes None (codes "c") ≡ None }
{}

/// Writes that deliver a text, and two that don't, whatever is answered for the whole: a write after one
/// that failed, and a write that is handed only a part of what is left.
pub fn delivery_examples()
    ensures whole { DeliversBy (Ok 2 ∷ Ok 1 ∷ []) (codes "abc")
        (Ok tt) (codes "abc" ∷ codes "c" ∷ []) [] }
    ensures cut_off { DeliversBy (Ok 2 ∷ Err sink.Failed ∷ Ok 1 ∷ []) (codes "abc")
        (Err sink.Failed) (codes "abc" ∷ codes "c" ∷ []) (Ok 1 ∷ []) }
    ensures empty { DeliversBy (Ok 2 ∷ []) [] (Ok tt) [] (Ok 2 ∷ []) }
    ensures tried_again { (result : Result Unit SinkFault) → ¬ (
        DeliversBy (Err sink.Failed ∷ Ok 3 ∷ []) (codes "abc")
        result (codes "abc" ∷ codes "abc" ∷ []) []) }
    ensures in_parts { (result : Result Unit SinkFault) → ¬ (
        DeliversBy (Ok 2 ∷ Ok 1 ∷ []) (codes "abc")
        result (codes "ab" ∷ codes "c" ∷ []) []) }
{}
