// The exports for C and Rust: each function of the crate `export` under its symbol, with the same promises. The archive is handed on as
// libexport.a.
#![tactic(auto)]

ghost use Rattle.std.specs.Prelude.{◌≡◌, length};
ghost use Rattle.diagram.specs.Services.{read_outcome, score_outcome, sweep_outcome, sweep_buffer, filter_outcome, filter_buffer, search_outcome, search_buffer};
ghost use Rattle.export.specs.Numbers.{number_of, place_of, value_of};

// Reads a table: V, N, the number of choices and B.
#[unsafe(no_mangle)]
pub extern "C" fn jigbalo_read(
    file: &[u8],
    place: &mut u64,
    variables: &mut u64,
    records: &mut u64,
    choices: &mut u64,
    scale: &mut u64,
) -> u64
    ensures result { result ≡ number_of (read_outcome file.now) }
    ensures place { place.new ≡ place_of (read_outcome file.now) place.old }
    ensures variables { variables.new ≡ value_of (λ a. a.variables) (read_outcome file.now) variables.old }
    ensures records { records.new ≡ value_of (λ a. a.records) (read_outcome file.now) records.old }
    ensures choices { choices.new ≡ value_of (λ a. a.choices) (read_outcome file.now) choices.old }
    ensures scale { scale.new ≡ value_of (λ a. a.scale) (read_outcome file.now) scale.old }
{
    export::jigbalo_read(file, place, variables, records, choices, scale)
}

// The score of a full plan.
#[unsafe(no_mangle)]
pub extern "C" fn jigbalo_score(file: &[u8], plan: &[u8], place: &mut u64, score: &mut u64) -> u64
    ensures result { result ≡ number_of (score_outcome file.now plan.now) }
    ensures place { place.new ≡ place_of (score_outcome file.now plan.now) place.old }
    ensures score { score.new ≡ value_of (λ a. a) (score_outcome file.now plan.now) score.old }
{
    export::jigbalo_score(file, plan, place, score)
}

// The top of a plan, with the drop of each choice written to the buffer.
#[unsafe(no_mangle)]
pub extern "C" fn jigbalo_sweep(
    file: &[u8],
    plan: &[u8],
    drops: &mut [u64],
    place: &mut u64,
    top: &mut u64,
) -> u64
    ensures result { result ≡ number_of (sweep_outcome file.now plan.now (length drops.old)) }
    ensures place { place.new ≡ place_of (sweep_outcome file.now plan.now (length drops.old)) place.old }
    ensures top { top.new ≡ value_of (λ a. a.upper_bound) (sweep_outcome file.now plan.now (length drops.old)) top.old }
    ensures drops { drops.new ≡ sweep_buffer file.now plan.now drops.old }
{
    export::jigbalo_sweep(file, plan, drops, place, top)
}

// How many lines the percentage forces, with the plan that takes them written to the buffer.
#[unsafe(no_mangle)]
pub extern "C" fn jigbalo_filter(
    file: &[u8],
    plan: &[u8],
    percent: u32,
    out: &mut [u8],
    place: &mut u64,
    forced: &mut u64,
) -> u64
    ensures result { result ≡ number_of (filter_outcome file.now plan.now percent (length out.old)) }
    ensures place { place.new ≡ place_of (filter_outcome file.now plan.now percent (length out.old)) place.old }
    ensures forced { forced.new ≡ value_of (λ a. a.forced) (filter_outcome file.now plan.now percent (length out.old)) forced.old }
    ensures out { out.new ≡ filter_buffer file.now plan.now percent out.old }
{
    export::jigbalo_filter(file, plan, percent, out, place, forced)
}

// The score of the first candidate and the visits, with its marks written to the buffer.
#[unsafe(no_mangle)]
pub extern "C" fn jigbalo_search(
    file: &[u8],
    plan: &[u8],
    kits: u32,
    percent: u32,
    out: &mut [u8],
    place: &mut u64,
    score: &mut u64,
    visits: &mut u64,
) -> u64
    ensures result { result ≡ number_of (search_outcome file.now plan.now kits percent (length out.old)) }
    ensures place { place.new ≡ place_of (search_outcome file.now plan.now kits percent (length out.old)) place.old }
    ensures score { score.new ≡ value_of (λ a. a.score) (search_outcome file.now plan.now kits percent (length out.old)) score.old }
    ensures visits { visits.new ≡ value_of (λ a. a.visits) (search_outcome file.now plan.now kits percent (length out.old)) visits.old }
    ensures out { out.new ≡ search_buffer file.now plan.now kits percent out.old }
{
    export::jigbalo_search(file, plan, kits, percent, out, place, score, visits)
}
