// One raw page: 512 data bytes and 16 spare bytes, which hold the code of each chunk.
ghost use Rattle.std.specs.Prelude.{◌≡◌, ◌+◌, ◌*◌, ◌<◌, cond, is_some, length};
ghost use Rattle.ecc.specs.Judge.{corrected, Placed};
ghost use Rattle.page.specs.Mended.{is_mended, mended_by, mended_in, mended_raw, none_mended};
ghost use Rattle.page.specs.Page.{put_at, verdicts_of, is_readable, all_readable, is_some as has_data, AllPlaced, corrected_data, read_raw, Read, fresh_code, coded_page};

use ecc::{Four, Verdict};

// Each chunk is lent as a part of the page that begins in its middle, beside the code bytes, three for each.
pub(crate) fn judge_raw(page: &[u8; 528]) -> Four<Verdict>
    ensures { result ≡ verdicts_of page.now }
{
    ecc::judge_four(
        &page[0..128],
        &page[128..256],
        &page[256..384],
        &page[384..512],
        &page[512..524],
    )
}

fn is_readable(verdict: Verdict) -> bool
    ensures { result ≡ is_readable verdict }
{
    !matches!(verdict, Verdict::Unreadable)
}

// Whether a chunk was corrected, by a data bit or a code bit.
fn is_mended(verdict: Verdict) -> bool
    ensures { result ≡ is_mended verdict }
{
    matches!(verdict, Verdict::DataBit { .. } | Verdict::CodeBit)
}

// Which chunks were corrected, if all four are readable.
pub(crate) fn mended_by(v: Four<Verdict>) -> Option<Four<bool>>
    ensures readable { is_some result ≡ all_readable v.chunk0 v.chunk1 v.chunk2 v.chunk3 }
    ensures mended { mended_in result ≡ cond (is_some result) (mended_by v.chunk0 v.chunk1 v.chunk2 v.chunk3) none_mended }
{
    if is_readable(v.chunk0)
        && is_readable(v.chunk1)
        && is_readable(v.chunk2)
        && is_readable(v.chunk3)
    {
        return Some(Four {
            chunk0: is_mended(v.chunk0),
            chunk1: is_mended(v.chunk1),
            chunk2: is_mended(v.chunk2),
            chunk3: is_mended(v.chunk3),
        });
    }
    None
}

// The bit that the verdict names is flipped. That it lies in the chunk is a clause, and no ghost field of its place: the
// definition `judge` names a place for any k, and would have to carry the proof.
fn correct(chunk: &mut [u8], verdict: Verdict)
    requires { (length chunk.old ≡ 128) × Placed verdict }
    ensures { chunk.new ≡ corrected verdict chunk.old }
{
    if let Verdict::DataBit { byte, bit } = verdict {
        chunk[byte] ^= 1 << bit;
    }
}

// The four chunks, each as its verdict corrects it, are written to `out`.
fn copy_data(page: &[u8; 528], verdicts: Four<Verdict>, out: &mut [u8; 512])
    requires { AllPlaced verdicts }
    ensures { out.new ≡ corrected_data page.now verdicts.chunk0 verdicts.chunk1 verdicts.chunk2 verdicts.chunk3 }
{
    out.copy_from_slice(&page[..512]);
    correct(&mut out[0..128], verdicts.chunk0);
    correct(&mut out[128..256], verdicts.chunk1);
    correct(&mut out[256..384], verdicts.chunk2);
    correct(&mut out[384..512], verdicts.chunk3);
}

// The data of a raw page is written to `out` once all four chunks are judged readable; else `out` stays.
pub(crate) fn read_raw(page: &[u8; 528], out: &mut [u8; 512]) -> Option<Four<bool>>
    ensures read { Read (read_raw page.now) out.old (is_some result) out.new }
    ensures mended { mended_in result ≡ mended_raw page.now }
{
    let verdicts = judge_raw(page);
    let mended = mended_by(verdicts)?;
    copy_data(page, verdicts, out);
    Some(mended)
}

// The fresh code of chunk k of the data is stored in a raw page.
fn put_code(page: &mut [u8], k: usize, bytes: &[u8; 512])
    requires { (length page.old ≡ 528) × (k < 4) }
    ensures { page.new ≡ put_at page.old (512 + 3 * k) (fresh_code bytes.now k) }
{
    let from = 128 * k;
    let to = from + 128;
    let code = ecc::chunk_code(&bytes[from..to]);
    let at = 512 + 3 * k;
    page[at] = code.byte0;
    page[at + 1] = code.byte1;
    page[at + 2] = code.byte2;
}

// The data and its fresh codes are stored in a raw page, lent as a slice: an array would be one more test, which cannot fail.
// Spare bytes 12 to 15 stay.
pub(crate) fn write_raw(page: &mut [u8], bytes: &[u8; 512])
    requires { length page.old ≡ 528 }
    ensures { page.new ≡ coded_page page.old bytes.now }
{
    page[..512].copy_from_slice(bytes);
    for k in 0..4 {
        put_code(page, k, bytes);
    }
}
