//! The samples of images and masks, put over the dots of a row.
ghost use Rattle.std.specs.Prelude.{◌≡◌, ◌+◌, ◌*◌, ◌<◌, ◌≤◌, ◌&&◌, ℕ, length, slice_index_or, OnOk, Some};
ghost use Rattle.page_model.specs.Cover.{ImageHasChannels, InkHasChannels, ink_rgb, sample_ink};
ghost use Rattle.page_model.specs.Sample.{mask_paints as paints};
ghost use Rattle.geo_fill.specs.Spans.{is_in};
ghost use Rattle.geo_clip.specs.Mask.{IsRowOfBand, is_open};
ghost use Rattle.img_map.specs.declared.row.Pick.TheVariants.{Outside as NoSample, At as Number};
ghost use Rattle.img_map.specs.Picks.{picked};
ghost use Rattle.list_player.specs.Painting.{given_where, sample_dot, mask_dot, IsPainted};
ghost use Rattle.list_player.specs.Code.Steps.{lent_dot, code_dot, loan_tint};
ghost use Rattle.list_player.specs.Memo.{Remembers};

use crate::Lent;
use crate::dot::Dot;
use crate::memo::{Memo, lent_dot};
use img_map::Pick;
use page_model::{Image, Ink, code_at};
use press_fault::Code;

/// The dot of an ink.
pub(crate) fn ink_dot<T: Dot, L: Lent>(memo: &mut Memo<T>, ink: Ink, loan: &L) -> T
    requires channels { InkHasChannels (λ source. L.channels loan.now) ink }
    requires memo { Remembers (lent_dot T.dot T.depth (L.colour loan.now) (L.wide loan.now)) memo.old.told.items }
    ensures value { result ≡ T.dot (ink_rgb T.depth (loan_tint T.depth (L.colour loan.now) (L.wide loan.now)) ink) }
    ensures memo { Remembers (lent_dot T.dot T.depth (L.colour loan.now) (L.wide loan.now)) memo.new.told.items }
{
    match ink {
        Ink::Plain(code) => T::plain(code),
        Ink::Linked { source: _, code } => lent_dot(memo, code, loan),
    }
}

/// The dot of a sample's code, by the source of its image if that has one.
fn code_dot<T: Dot, L: Lent>(memo: &mut Memo<T>, source: Option<u32>, code: Code, loan: &L) -> T
    requires channels { ImageHasChannels (λ source. L.channels loan.now) code.n source }
    requires memo { Remembers (lent_dot T.dot T.depth (L.colour loan.now) (L.wide loan.now)) memo.old.told.items }
    ensures value { result ≡ code_dot T.dot T.depth (L.colour loan.now) (L.wide loan.now) source code }
    ensures memo { Remembers (lent_dot T.dot T.depth (L.colour loan.now) (L.wide loan.now)) memo.new.told.items }
{
    match source {
        None => T::plain(code),
        Some(_) => lent_dot(memo, code, loan),
    }
}

/// Puts the dot of a sample into a column of a row.
fn put_sample<T: Dot, L: Lent>(
    row: &mut Vec<T>,
    col: usize,
    pick: Pick,
    image: &Image,
    memo: &mut Memo<T>,
    loan: &L,
)
    requires within { col < length row.old.items }
    requires inside { (n : ℕ) → pick ≡ Number n → n < image.now.width * image.now.rows }
    requires channels { ImageHasChannels (λ source. L.channels loan.now) image.now.channels image.now.source }
    requires memo { Remembers (lent_dot T.dot T.depth (L.colour loan.now) (L.wide loan.now)) memo.old.told.items }
    ensures put { IsPainted (λ k. given_where
        (sample_dot (code_dot T.dot T.depth (L.colour loan.now) (L.wide loan.now) image.now.source) image.now
        (picked pick))
        (is_in col (col + 1) k)) row.old.items row.new.items }
    ensures memo { Remembers (lent_dot T.dot T.depth (L.colour loan.now) (L.wide loan.now)) memo.new.told.items }
{
    if let Pick::At(number) = pick {
        let dot = code_dot(memo, image.source, code_at(image, number), loan);
        row[col] = dot;
    }
}

/// Puts the dots of samples over those of a row, in the columns from `from` up to and without `to`.
pub(crate) fn put_samples<T: Dot, L: Lent>(
    row: &mut Vec<T>,
    picks: &Vec<Pick>,
    from: usize,
    to: usize,
    image: &Image,
    memo: &mut Memo<T>,
    loan: &L,
)
    requires order { from ≤ to }
    requires within { to ≤ length row.old.items }
    requires picks { to ≤ length picks.now.items }
    requires inside { (k n : ℕ) → k < length picks.now.items → slice_index_or picks.now.items k NoSample ≡ Number n →
        n < image.now.width * image.now.rows }
    requires channels { ImageHasChannels (λ source. L.channels loan.now) image.now.channels image.now.source }
    requires memo { Remembers (lent_dot T.dot T.depth (L.colour loan.now) (L.wide loan.now)) memo.old.told.items }
    ensures put { IsPainted (λ col. given_where
        (sample_dot (code_dot T.dot T.depth (L.colour loan.now) (L.wide loan.now) image.now.source) image.now
        (picked (slice_index_or picks.now.items col NoSample)))
        (is_in from to col)) row.old.items row.new.items }
    ensures memo { Remembers (lent_dot T.dot T.depth (L.colour loan.now) (L.wide loan.now)) memo.new.told.items }
{
    for col in from..to {
        put_sample(row, col, picks[col], image, memo, loan);
    }
}

/// Whether a mask paints at the sample of a number, counted row by row from 0.
#[tactic(auto, unfolding(page_model::specs::Sample::mask_paints))]
fn does_paint(image: &Image, sample: u32) -> bool
    requires { sample < image.now.width * image.now.rows }
    ensures { result ≡ paints image.now sample }
{
    image.codes.items()[sample as usize] == 255
}

/// Puts an ink into a column of a row, where a mask paints it.
fn put_masked<T: Copy>(row: &mut Vec<T>, col: usize, pick: Pick, image: &Image, dot: T)
    requires within { col < length row.old.items }
    requires inside { (n : ℕ) → pick ≡ Number n → n < image.now.width * image.now.rows }
    ensures { IsPainted (λ k. given_where (mask_dot dot image.now (picked pick)) (is_in col (col + 1) k))
        row.old.items row.new.items }
{
    if let Pick::At(number) = pick {
        if does_paint(image, number) {
            row[col] = dot;
        }
    }
}

/// Puts an ink over the dots of a row that a mask paints, in the columns from `from` up to and without `to`.
pub(crate) fn put_mask<T: Copy>(
    row: &mut Vec<T>,
    picks: &Vec<Pick>,
    from: usize,
    to: usize,
    image: &Image,
    dot: T,
)
    requires order { from ≤ to }
    requires within { to ≤ length row.old.items }
    requires picks { to ≤ length picks.now.items }
    requires inside { (k n : ℕ) → k < length picks.now.items → slice_index_or picks.now.items k NoSample ≡ Number n →
        n < image.now.width * image.now.rows }
    ensures { IsPainted (λ col. given_where
        (mask_dot dot image.now (picked (slice_index_or picks.now.items col NoSample)))
        (is_in from to col)) row.old.items row.new.items }
{
    for col in from..to {
        put_masked(row, col, picks[col], image, dot);
    }
}
