// A whole job: the bytes of its file in, its listing out.
ghost use Rattle.std.specs.Prelude.{◌≡◌};
ghost use Rattle.job.specs.Outcome.{job_refusal, job_length, job_result};
ghost use Rattle.boltraven_c.specs.Numbers.{refusal_number};

use crate::answers::refusal_number;
use paper::Refusal;

// The refusal, or 0 with the length written.
fn put_length(answer: Result<usize, Refusal>, length: &mut u64) -> u64
    ensures value { result ≡ refusal_number (job_refusal answer) }
    ensures length_after { length.new ≡ job_length length.old answer }
{
    match answer {
        Ok(n) => {
            *length = n as u64;
            0
        }
        Err(refusal) => refusal_number(refusal),
    }
}

// The listing at the front of out and its length beside it.
#[unsafe(no_mangle)]
pub extern "C" fn boltraven_run_job(file: &[u8], out: &mut [u8], length: &mut u64) -> u64
    ensures value { result ≡ refusal_number (job_refusal (job_result file.now out.old).answer) }
    ensures out_after { out.new ≡ (job_result file.now out.old).out }
    ensures length_after { length.new
        ≡ job_length length.old (job_result file.now out.old).answer }
{
    let answer = job::run_job(file, out);
    put_length(answer, length)
}
