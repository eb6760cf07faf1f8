// The texts that the programs print.
#![tactic(auto)]

ghost use Rattle.std.specs.Prelude.{[], ◌∷◌, ◌++◌};
ghost use Rattle.std.specs.Float.{binary32};
ghost use Rattle.std.specs.Float.Ieee.{to_bits};
ghost use Rattle.text.specs.Write as Write;
ghost use Rattle.text.specs.Write.{ascii, Whole};
ghost use Rattle.text.specs.Writer.{Writes};
ghost use Rattle.listing.specs.Cues as Cues;
ghost use Rattle.listing.specs.Draws as Draws;

use random::Draw;
use text::write::Writer;

// The pattern of a float and the byte after it.
fn put_pattern(writer: &mut Writer, x: f32, after: u8)
    ensures { Writes writer.old (Write.pattern (to_bits binary32 x) ++ after ∷ []) writer.new }
{
    writer.pattern(ieee754::to_bits(x));
    writer.byte(after);
}

fn put_row(writer: &mut Writer, number: u32, draw: Draw)
    ensures { Writes writer.old (Draws.row number draw) writer.new }
{
    writer.number(number as u64, b',');
    writer.number(draw.word as u64, b',');
    put_pattern(writer, draw.value, b'\n');
}

fn put_rows(writer: &mut Writer, state: u32, count: u32)
    ensures { Writes writer.old (Draws.rows 1 state count) writer.new }
{
    let mut word = state;
    for number in 1..=count {
        let draw = random::get_float(word);
        put_row(writer, number, draw);
        word = draw.word;
    }
}

// The length of the longest text that `draws` gives: the header, and 1000 rows of at most 4 + 1 + 10 + 1 + 8 + 1.
pub const MAX_DRAWS_LEN: usize = 15 + 1000 * 25;

// What the program `draws` prints for its input, at the start of `out`. It answers the text's length, as `cues` does, and not the text as a slice
// of `out`: where a part of a buffer is handed out, a clause that says what the rest of it holds gets no proof but by hand.
pub fn draws(input: &[u8], out: &mut [u8; MAX_DRAWS_LEN]) -> usize
    ensures { Whole out.old (Draws.text input.now) result out.new }
{
    let mut writer = Writer { out, at: 0 };
    match draw_request::read_request(input) {
        Some(request) => {
            writer.bytes(b"draw,word,bits\n");
            put_rows(&mut writer, request.state, request.count);
        }
        None => writer.refused(8, 1),
    }
    writer.at
}

fn put_sample(writer: &mut Writer, index: u64, x: f32)
    ensures { Writes writer.old (Cues.row index x) writer.new }
{
    writer.number(index, b',');
    put_pattern(writer, x, b'\n');
}

fn put_samples(writer: &mut Writer, samples: &[f32])
    ensures { Writes writer.old (Cues.rows 0 samples.now) writer.new }
{
    for (i, x) in samples.iter().enumerate() {
        put_sample(writer, i as u64, *x);
    }
}

// As much of a sheet as the programs read: an accepted one has at most 3,404 bytes.
pub const SHEET_BUFFER_LEN: usize = 4096;

// The length of the longest text that `cues` gives: the header, and 16384 rows of at most 5 + 1 + 8 + 1.
pub const MAX_CUES_LEN: usize = 12 + 16384 * 15;

// What the program `cues` prints for a sheet, at the start of `out`.
pub fn cues(sheet: &[u8], out: &mut [u8; MAX_CUES_LEN]) -> usize
    ensures { Whole out.old (Cues.text sheet.now) result out.new }
{
    let mut writer = Writer { out, at: 0 };
    let mut samples = [0.0f32; 16384];
    match cue_render::render(sheet, &mut samples) {
        Ok(accepted) => {
            writer.bytes(b"sample,bits\n");
            put_samples(&mut writer, &samples[..accepted.head.length as usize]);
        }
        Err(refused) => writer.refused(refused.refusal.into(), refused.line as u64),
    }
    writer.at
}
