//! Worked webs, and their plain texts.

/// A web, its change file, which is empty where there is none, and the file that is written of it.
pub(crate) struct Row {
    pub(crate) web: &'static [u8],
    pub(crate) change: &'static [u8],
    pub(crate) file: &'static [u8],
}

/// Webs, and the files that are written of them.
pub(crate) const ROWS: [Row; 15] = [
    // A long comment with inner C text.
    Row {
        web: b"@ @c a; /* b |x+ +y| c */ d;
",
        change: b"",
        file: b"section 1
a;/* b |x+ +y| c */
d;

",
    },
    // Blanks that keep apart what would be one sign, constant or string, and a name that prints as a macro of TeX.
    Row {
        web: b"@ @c a[ [b]]; L \"x\"; 1 '2'; a ? ::b:c; x=u8\"y\"; p=NULL; n=1'000;
",
        change: b"",
        file: b"section 1
a[ [b]];
L \"x\";
1 '2';
a? ::b:c;
x=u8\"y\";
p=NULL;
n=1'000;

",
    },
    // A string over two lines.
    Row {
        web: b"@ @c x=\"a\\
b\";
",
        change: b"",
        file: b"section 1
x=\"a\\
b\";

",
    },
    // A program of two sections.
    Row {
        web: b"@ @c
#include <stdio.h>
#define N 3
int main(void) { int i; for (i=0;i<N;i++) @<Greet |i|@>; return 0; }
@ @<Greet |i|@>=
printf(\"Hi\\n\"); // done |i|
",
        change: b"",
        file: b"section 1
#include <stdio.h>
#define N 3

int main(void)
{
  int i;

  for (i=0; i<N; i++) <Greet |i|>;
  return 0;
}

section 2
<Greet |i|>=
printf(\"Hi\\n\");// done |i|

",
    },
    // A comment in the inner text of a comment.
    Row {
        web: b"@ @c a; /* b |x /* c |y| */| */
",
        change: b"",
        file: b"section 1
a;/* b |x/* c |y| */| */

",
    },
    // Two short comments, one behind the other.
    Row {
        web: b"@ @c a; // x |y|
// z
b;
",
        change: b"",
        file: b"section 1
a;// x |y| // z
b;

",
    },
    // Signs that a blank keeps apart.
    Row {
        web: b"@ @c a - -b + ++c / *d; e & &f; g->h . i; 1 .5; x ? y : z;
",
        change: b"",
        file: b"section 1
a- -b+ ++c/ *d;
e& &f;
g->h . i;
1 .5;
x?y:z;

",
    },
    // Levels.
    Row {
        web: b"@ @c int f(a) int a; { if (a) { b; } else if (c) d; else { while (e) f(); } \
            switch (x) { case 1: y; break; default: z; } }
",
        change: b"",
        file: b"section 1
int f(a)
    int a;
{
  if (a) {
    b;
  }
  else if (c) d;
  else {
    while (e) f();
  }
  switch (x) {
  case 1: y;
    break;
  default: z;
  }
}

",
    },
    // Codes.
    Row {
        web: b"@ @c a @= b@@c@> @t x@> @& d @h; @+ e; @/ f; @# g; @[h@] ; @; 
",
        change: b"",
        file: b"section 1
a b@c d

; e;
f;

g;
h;

",
    },
    // Strings, one of `@'`, and a byte of its own.
    Row {
        web: b"@ @c @'a' 'b' \"s@@t\" `x;
",
        change: b"",
        file: b"section 1
@'a' 'b' \"s@@t\" ` x;

",
    },
    // Names in all places, and a part that has no scrap.
    Row {
        web: b"@ T |x| @<No@>. @d M 3
@c @<A@>; @(f.c@>;
@ @(f.c@>= q;
@ no part.
@ @c /* unended
",
        change: b"",
        file: b"section 1
<A>;
<f.c>;

section 2
<f.c>=
q;

section 4
/* unended
*/

",
    },
    // Categories from section to section.
    Row {
        web: b"@ @c typedef struct foo{int x;} bar; bar y; bar *z;
@ @c bar w;
",
        change: b"",
        file: b"section 1
typedef struct foo {
  int x;
} bar;
bar y;
bar *z;

section 2
bar w;

",
    },
    // A change file.
    Row {
        web: b"@ @c a; b;
",
        change: b"@x
@ @c a; b;
@y
@ @c c
;d;
@z
",
        file: b"section 1
c;
d;

",
    },
    // A conditional.
    Row {
        web: b"@ @c if(a)b;else c;
",
        change: b"",
        file: b"section 1
if (a) b;
else c;

",
    },
    // Two words.
    Row {
        web: b"@ @c a b;
",
        change: b"",
        file: b"section 1
a b;

",
    },
];
