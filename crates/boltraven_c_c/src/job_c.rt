// A whole job: the bytes of its file in, its listing out.
ghost use Rattle.std.specs.Prelude.{◌≡◌};
ghost use Rattle.job.specs.Outcome.{job_refusal, job_length, job_result};
ghost use Rattle.boltraven_c.specs.Numbers.{refusal_number};

// The listing at the front of out and its length beside it.
#[unsafe(no_mangle)]
pub extern "C" fn boltraven_run_job(file: &[u8], out: &mut [u8], length: &mut u64) -> u64
    ensures value { result ≡ refusal_number (job_refusal (job_result file.now out.old).answer) }
    ensures out_after { out.new ≡ (job_result file.now out.old).out }
    ensures length_after { length.new
        ≡ job_length length.old (job_result file.now out.old).answer }
{
    boltraven_c::job_c::boltraven_run_job(file, out, length)
}
