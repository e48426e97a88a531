//! What the definitions imply: the bytes at a layout's segments are the text, and a command's need holds for every
//! threshold.
ghost use Rattle.std.specs.Prelude.{◌≡◌, ◌+◌, ◌-◌, ◌*◌, ◌<◌, ◌≤◌, ◌∷◌, [], List, ℕ, Option, Some, length, map};
ghost use Rattle.std.specs.List.{AllByRecursion, range_with_len};
ghost use Rattle.flake_model.specs.Command.{Command, command_of};
ghost use Rattle.flake_model.specs.Deed.{Deed};
ghost use Rattle.flake_model.specs.Reply.{Reply, reply_text};
ghost use Rattle.flake_model.specs.Resp.{Words, array_head};
ghost use Rattle.reply_layout.specs.Frames.{frame_from};
ghost use Rattle.reply_layout.specs.Gathered.{Reading, read_all, copied_text, text_of_pieces, IsStaged, IsThere};
ghost use Rattle.reply_layout.specs.Layout.{Placing, placings_of, copied_address, copied_of, pinned_of};
ghost use Rattle.reply_layout.specs.Layout.{layout_of, staging_buffers_for, staging_limit};
ghost use Rattle.reply_layout.specs.Need.{need, values_need, copied_need, need_of, IsModest};
ghost use Rattle.reply_layout.specs.Pieces.{Piece, plain, bulk_pieces, item_pieces, reply_from, pieces_of};
ghost use Rattle.reply_layout.specs.Places.{byte_addresses, copies_of, AreDisjoint};
ghost use Rattle.reply_layout.specs.Runs.{run_count, IsWholeValue, AreWholeValues, IsPartValue, IsLine, IsWithinNeed};
ghost use Rattle.reply_layout.specs.Worked.{rows};

/// A reply's pieces, joined, are its text.
pub fn pieces_are_the_text()
    ensures { (command : Command) (deeds : List (Option Deed))
        → text_of_pieces (pieces_of command deeds) ≡ reply_text (reply_from command deeds) }
{}

/// What a device gathers at a layout's segments is the text, where the staging buffers have the copied bytes and each
/// stored piece lies at its address.
pub fn segments_are_the_text()
    ensures { (read : Reading) (stage : List ℕ) (threshold : ℕ) (pieces : List Piece)
        → IsStaged read stage (copied_text threshold pieces) → AllByRecursion (IsThere read) pieces
        → read_all read (layout_of stage (placings_of threshold pieces)) ≡ text_of_pieces pieces }
{}

/// The segments of copied bytes name each of these once, in the order of the text, each at its own address.
pub fn copied_bytes_lie_in_order()
    ensures { (stage : List ℕ) (placings : List Placing) → byte_addresses (copies_of stage placings)
        ≡ map (copied_address stage) (range_with_len 0 (copied_of placings)) }
{}

/// No byte of a staging buffer has two copied bytes.
pub fn copied_addresses_differ()
    ensures { (stage : List ℕ) → AreDisjoint stage → (m n : ℕ)
        → m < staging_limit * length stage → n < staging_limit * length stage
        → copied_address stage m ≡ copied_address stage n → m ≡ n }
{}

/// Segments are at most the pieces that stay, the runs that are not empty, and one for each further staging buffer.
pub fn layouts_are_short()
    ensures { (stage : List ℕ) (placings : List Placing) → length (layout_of stage placings)
        ≤ pinned_of placings + run_count 0 placings + (staging_buffers_for (copied_of placings) - 1) }
{}

/// The reply to a GET, or to a SET that answers the old value, is within its need.
pub fn one_value_fits()
    ensures { (threshold : ℕ) → threshold ≤ 512 → (deed : Deed) (bytes : List ℕ) → IsWholeValue deed bytes
        → (stage : List ℕ) → IsWithinNeed (values_need 1 0) stage
        (placings_of threshold (bulk_pieces (Some deed) bytes)) }
{}

/// So is that to an MGET.
pub fn all_values_fit()
    ensures { (threshold : ℕ) → threshold ≤ 512 → (items : List (Option (List ℕ))) (deeds : List (Option Deed))
        → AreWholeValues items deeds → (stage : List ℕ)
        → IsWithinNeed (values_need (length items) (length (array_head (length items)))) stage
        (placings_of threshold (plain (array_head (length items)) ∷ item_pieces items deeds)) }
{}

/// And to a GETRANGE.
pub fn a_range_fits()
    ensures { (threshold : ℕ) → threshold ≤ 512 → (deed : Deed) (bytes : List ℕ) → IsPartValue deed bytes
        → (stage : List ℕ) → IsWithinNeed (need 20 3) stage (placings_of threshold (bulk_pieces (Some deed) bytes)) }
{}

/// A reply that lies in no fragment is within the need of its bytes.
pub fn copied_bytes_fit()
    ensures { (threshold : ℕ) (bytes stage : List ℕ)
        → IsWithinNeed (copied_need (length bytes)) stage (placings_of threshold (plain bytes ∷ [])) }
{}

/// A line takes one descriptor and one staging buffer.
pub fn a_line_fits()
    ensures { (threshold : ℕ) (reply : Reply) → IsLine reply → (stage : List ℕ)
        → IsWithinNeed (need 1 1) stage (placings_of threshold (plain (reply_text reply) ∷ [])) }
{}

/// Whatever is asked for fits the least ring, and half of the stage and little more.
pub fn needs_are_modest()
    ensures { (words : Words) → IsModest (need_of (command_of words)) }
{}

/// The worked replies lie as their table says.
pub fn worked_layouts()
    ensures { AllByRecursion (λ row.
        (frame_from row.threshold row.free row.command row.deeds).segments ≡ row.segments) rows }
{}
