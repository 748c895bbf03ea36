// The steps that match the records of a page against a query.
ghost use Rattle.std.specs.Prelude.{◌≡◌, ◌+◌, ◌^◌, ◌<◌, ◌≤◌, length};
ghost use Rattle.page.specs.Fields.{record_offset};
ghost use Rattle.page_matches.specs.Pattern.{pattern_of, passes};
ghost use Rattle.page_matches.specs.Output.{hits, emit};
ghost use Rattle.host_results.specs.Wanted.{wanted_of};

use host_results::{HostQuery, store_query};
use page_matches::{Pattern, pattern_of, put_matches};

// The pattern of a query.
#[unsafe(no_mangle)]
pub extern "C" fn probe_pattern_of(wanted: HostQuery) -> Pattern
    ensures { result ≡ pattern_of (wanted_of wanted.given wanted.values) }
{
    pattern_of(store_query(wanted))
}

// Writes the records that match, of the n of a page, into the output from its record `total` on,
// while whole ones fit. Returns how many match, with the `total` before.
#[unsafe(no_mangle)]
pub extern "C" fn probe_put_matches(
    page: &[u8],
    n: usize,
    pattern: Pattern,
    out: &mut [u8],
    total: usize,
) -> usize
    requires { (n < 64) × (record_offset n ≤ length page.now) × (total + n ≤ 2 ^ 32) }
    ensures value { result ≡ total + length (hits (passes pattern) n page.now) }
    ensures out_after { out.new ≡ emit out.old total (hits (passes pattern) n page.now) }
{
    put_matches(page, n, pattern, out, total)
}
