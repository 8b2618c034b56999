// The run file's head.
#![tactic(auto)]

ghost use Rattle.std.specs.Prelude.{◌≡◌, ◌+◌, length};
ghost use Rattle.words.specs.Bytes.{words_from};
ghost use Rattle.run_file.specs.RunFile.{results_count, parameters_count, budget_at, results_of, budget_of, memory_words, stack_words, record_of, named, well_formed};

fn results_count(f: &[u8]) -> usize
    ensures { result ≡ results_count f.now }
{
    words::byte_at(f, 5) as usize
}

pub fn parameters_count(f: &[u8]) -> usize
    ensures { result ≡ parameters_count f.now }
{
    words::byte_at(f, 6 + results_count(f)) as usize
}

fn budget_at(f: &[u8]) -> usize
    ensures { result ≡ budget_at f.now }
{
    7 + results_count(f) + 4 * parameters_count(f)
}

pub fn results_of(f: &[u8]) -> &[u8]
    ensures { result.now ≡ results_of f.now }
{
    words::part(f, 6, results_count(f))
}

pub fn budget_of(f: &[u8]) -> u32
    ensures { result ≡ budget_of f.now }
{
    words::word_at(f, budget_at(f))
}

pub fn memory_words(f: &[u8]) -> u16
    ensures { result ≡ memory_words f.now }
{
    words::halfword_at(f, budget_at(f) + 4)
}

pub fn stack_words(f: &[u8]) -> u16
    ensures { result ≡ stack_words f.now }
{
    words::halfword_at(f, budget_at(f) + 6)
}

pub fn record_of(f: &[u8]) -> &[u8]
    ensures { result.now ≡ record_of f.now }
{
    words::part(f, budget_at(f) + 8, f.len())
}

fn is_named(f: &[u8]) -> bool
    ensures { result ≡ named f.now }
{
    f.starts_with(b"TRK")
}

pub fn well_formed(f: &[u8]) -> bool
    ensures { result ≡ well_formed f.now }
{
    f.len() <= 8192
        && is_named(f)
        && words::halfword_at(f, 3) == 1
        && budget_at(f) + 8 <= f.len()
        && memory_words(f) <= 4096
}

// The parameter words, and as many words behind them as there is room for.
pub fn read_parameters(f: &[u8], parameters: &mut [u32])
    ensures { parameters.new ≡ words_from f.now (7 + results_count f.now) (length parameters.old) }
{
    let from = 7 + results_count(f);
    for (i, parameter) in parameters.iter_mut().enumerate() {
        *parameter = words::word_at(f, from + 4 * i);
    }
}
