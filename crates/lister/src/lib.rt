// A listing for C, as include/oatlantern.h declares it.
#![tactic(auto)]

ghost use Rattle.std.specs.Prelude.{◌≡◌, length};
ghost use Rattle.listing.specs.Listing.{listed_of, listing_left};
ghost use Rattle.lister.specs.Results.{list_result, end_left, numbers_left};

use listing::Unlisted;

// Lists any bytes as a recording, and tells where the text ends and what the verdict tells: 0, or minus a refusal. A refused recording
// is listed all the same; a text buffer of the wrong length is refused, and nothing is written.
pub fn oatlantern_list(
    recording: &[u8],
    text: &mut [u8],
    ending: &mut [usize; 1],
    told: &mut [usize; 5],
) -> i32
    ensures value { result ≡ list_result (listed_of recording.now (length text.old)) recording.now }
    ensures text_after { text.new ≡ listing_left recording.now text.old }
    ensures ending_after { ending.new ≡ end_left (listed_of recording.now (length text.old)) ending.old }
    ensures told_after { told.new ≡ numbers_left (listed_of recording.now (length text.old)) recording.now told.old }
{
    match listing::list(recording, text) {
        Err(Unlisted::WrongLength) => -1,
        Ok(end) => {
            *ending = [end];
            verdicts::tell(recording, told)
        }
    }
}
