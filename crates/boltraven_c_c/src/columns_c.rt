// The published owners and the draft's side by side.
ghost use Rattle.std.specs.Prelude.{◌≡◌, length};
ghost use Rattle.paper.specs.Limits.{number_of};
ghost use Rattle.paper.specs.Rows.{answer_as};
ghost use Rattle.columns.specs.Parts.{columns_row, stretch_row, is_frozen};
ghost use Rattle.columns.specs.Publishing.{publish_of, show_row, show_of};
ghost use Rattle.boltraven_c.specs.Numbers.{yes_no_number};
ghost use Rattle.boltraven_c.specs.Columns.{part_length};

// A slot's part: 1 of the published column, 0 of the draft, with its length written; it starts at the column's entry `slot`.
// Refused, the length stays.
#[unsafe(no_mangle)]
pub extern "C" fn boltraven_stretch<'a>(
    slots: usize,
    published: &'a [u8],
    draft: &'a [u8],
    frozen: &[u64],
    slot: usize,
    length: &mut u64,
) -> u64
    ensures value { result ≡ yes_no_number
        (answer_as (number_of (stretch_row slots published.now draft.now frozen.now slot))
        (is_frozen frozen.now slot)) }
    ensures length_after { length.new
        ≡ part_length length.old slots published.now draft.now frozen.now slot }
{
    boltraven_c::columns_c::boltraven_stretch(slots, published, draft, frozen, slot, length)
}

// The draft's owners of slots that are not frozen into the published column.
#[unsafe(no_mangle)]
pub extern "C" fn boltraven_publish(
    slots: usize,
    draft: &[u8],
    frozen: &[u64],
    published: &mut [u8],
) -> u8
    ensures value { result ≡ number_of (columns_row slots published.old draft.now frozen.now) }
    ensures published_after { published.new ≡ publish_of slots draft.now frozen.now published.old }
{
    boltraven_c::columns_c::boltraven_publish(slots, draft, frozen, published)
}

// The list screen: each slot's owner, frozen ones as published and others as in the draft.
#[unsafe(no_mangle)]
pub extern "C" fn boltraven_show<'a>(
    slots: usize,
    published: &'a [u8],
    draft: &'a [u8],
    frozen: &[u64],
    shown: &mut [u8],
) -> u8
    ensures value { result
        ≡ number_of (show_row slots published.now draft.now frozen.now shown.old) }
    ensures shown_after { shown.new
        ≡ show_of slots published.now draft.now frozen.now shown.old }
{
    boltraven_c::columns_c::boltraven_show(slots, published, draft, frozen, shown)
}
