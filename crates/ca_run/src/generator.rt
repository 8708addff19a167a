ghost use Rattle.std.specs.Prelude.{◌≡◌, IfOk};
ghost use Rattle.ca_value.specs.Seq.{list};
ghost use Rattle.ca_run.specs.Generator.{load_text};

use ca_value::memory::OutOfMemory;
use ca_value::seq::Text;
use std::alloc::Global;

/// The script of the generator for that number: a pipeline of eight workers passes so many numbers on, and the main
/// text prints how many came and their sum.
pub fn load_script(alloc: Global, n: u64) -> Result<Text, OutOfMemory>
    ensures { IfOk result (λ t. list t ≡ load_text n) }
{
    let mut text = Text::from_bytes(
        alloc,
        b"(defn step [x] (mod (+ (* x 37) 11) 1000))\n(def in (chan 16))\n(def out (chan 16))\n(pipeline 8 out (map step) in)\n(go-loop [i 0] (if (< i ",
    )?;
    text.append(itoa::Buffer::new().format(n).as_bytes())?;
    text.append(
        b") (do (>! in i) (recur (inc i))) (close! in)))\n(println (loop [s 0 k 0] (let [v (<!! out)] (if (nil? v) [k s] (recur (+ s v) (inc k))))))\n",
    )?;
    Ok(text)
}
