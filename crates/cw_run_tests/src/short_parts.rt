//! Short C parts, each with what its section prints: each row of the table, and what rows make together.

/// A C text, and what is printed of it.
pub(crate) type Row = (&'static [u8], &'static [u8]);

/// C parts for rows up to 97, and what their sections print.
pub(crate) const PARTS_TO_97: [Row; 37] = [
    (
        b"char */* c */p;",
        b"\\Y\\B\\&{char} ${}{*}{}$\\C{ c }\\6\n\\|p;\\par",
    ),
    (
        b"f(){a;}",
        b"\\Y\\B\\1\\1\\|f(\\,)\\2\\2\\6
${}\\{\\1{}$\\6
\\|a;\\6
\\4${}\\}\\2{}$\\par",
    ),
    (b"a=(b+c)*d;", b"\\Y\\B$\\|a\\K(\\|b+\\|c)*\\|d;$\\par"),
    (b"a,(b);", b"\\Y\\B$\\|a,\\39(\\|b);$\\par"),
    (b"[[fallthrough]];", b"\\Y\\B[[\\\\{fallthrough}]];\\par"),
    (
        b"case a+b : c;",
        b"\\Y\\B\\4\\&{case} \\|a${}+\\|b{}$:\\5\\|c;\\par",
    ),
    (b"f(x);", b"\\Y\\B\\|f(\\|x);\\par"),
    (b"OP(<);", b"\\Y\\B$\\.{OP}(<);$\\par"),
    (b"f();", b"\\Y\\B\\|f(\\,);\\par"),
    (b"f((a),b);", b"\\Y\\B$\\|f((\\|a),\\39\\|b);$\\par"),
    (b"!(a);", b"\\Y\\B$\\R(\\|a);$\\par"),
    (b"a=-(b);", b"\\Y\\B$\\|a\\K{-}(\\|b);$\\par"),
    (b"(int)==1;", b"\\Y\\B$(\\&{int})\\E\\T{1};$\\par"),
    (b"sizeof (a);", b"\\Y\\B\\&{sizeof} (\\|a);\\par"),
    (
        b"_Thread_local typedef int t;",
        b"\\Y\\B\\&{\\_Thread\\_local} \\&{typedef} \\&{int} \\&{t};\\par",
    ),
    (
        b"extern \"C\" int f();",
        b"\\Y\\B\\&{extern} \\.{\"C\"} \\&{int} \\|f(\\,);\\par",
    ),
    (b"int f(a);", b"\\Y\\B\\&{int} \\|f(\\|a);\\par"),
    (
        b"int f(a){b;}",
        b"\\Y\\B\\1\\1\\&{int} \\|f(\\|a)\\2\\2\\6
${}\\{\\1{}$\\6
\\|b;\\6
\\4${}\\}\\2{}$\\par",
    ),
    (b"struct foo;", b"\\Y\\B\\&{struct} \\&{foo};\\par"),
    (
        b"struct foo{int a;}; int f(struct foo *foo);",
        b"\\Y\\B\\&{struct} \\&{foo} ${}\\{\\1{}$\\6
\\&{int} \\|a;\\2\\6
${}\\};{}$\\6
\\&{int} \\|f(\\&{struct} \\&{foo} ${}{*}\\\\{foo});$\\par",
    ),
    (
        b"struct foo *foo;",
        b"\\Y\\B\\&{struct} \\&{foo} ${}{*}\\\\{foo};$\\par",
    ),
    (b"if(a)b;", b"\\Y\\B\\&{if} (\\|a)\\1\\5\\|b;\\2\\par"),
    (
        b"while(a)if(b)c;",
        b"\\Y\\B\\&{while} (\\|a)\\1\\6\n\\&{if} (\\|b)\\1\\5\\|c;\\2\\2\\par",
    ),
    (
        b"if(a)while(b)c; else if(d)e;",
        b"\\Y\\B\\&{if} (\\|a)\\1\\6
\\&{while} (\\|b)\\1\\5\\|c;\\2\\2\\6
\\&{else} \\&{if} (\\|d)\\1\\5\\|e;\\2\\par",
    ),
    (
        b"if(a)for(;;)b; else c;",
        b"\\Y\\B\\&{if} (\\|a)\\1\\6
\\&{for} ( ; ; \\,)\\1\\5\\|b;\\2\\2\\6
\\&{else}\\1\\5\\|c;\\2\\par",
    ),
    (
        b"if(a)each(b){c;}",
        b"\\Y\\B\\&{if} (\\|a)\\1\\5\\1\\1\\\\{each}(\\|b)\\2\\2\\6
${}\\{\\1{}$\\6
\\|c;\\6
\\4${}\\}\\2{}$\\2\\par",
    ),
    (b"while(a)b;", b"\\Y\\B\\&{while} (\\|a)\\1\\5\\|b;\\2\\par"),
    (b"return (a);", b"\\Y\\B\\&{return} (\\|a);\\par"),
    (
        b"
#define N n+1
a;",
        b"\\Y\\B\\8\\#\\&{define} \\|N\\5${}\\|n+\\T{1}{}$\\6\n\\|a;\\par",
    ),
    (
        b"
#undef N
a;",
        b"\\Y\\B\\8\\#\\&{undef} \\|N\\6\n\\|a;\\par",
    ),
    (
        b"
#define BEGIN {
a;",
        b"\\Y\\B\\8\\#\\&{define} \\.{BEGIN}\\5${}\\{{}$\\6\n\\|a;\\par",
    ),
    (
        b"
#define F(x) y=x
a;",
        b"\\Y\\B\\8\\#\\&{define} \\|F(\\|x)\\5${}\\|y\\K\\|x{}$\\6
\\|a;\\par",
    ),
    (
        b"/* c */ *p=1;",
        b"\\Y\\B\\C{ c }\\6\n${}{*}\\|p\\K\\T{1};$\\par",
    ),
    (
        b"typedef int (*f)(int x); typedef int (*f)(int x);",
        b"\\Y\\B\\&{typedef} \\&{int} ${}({*}\\&{f}){}$(\\&{int} \\|x);\\6
\\&{typedef} \\&{int} ${}({*}\\&{f})({}$\\&{int} \\|x);\\par",
    ),
    (
        b"typedef int (*f)(int x);",
        b"\\Y\\B\\&{typedef} \\&{int} ${}({*}\\&{f}){}$(\\&{int} \\|x);\\par",
    ),
    (
        b"char *const p;",
        b"\\Y\\B\\&{char} ${}{*\\&{const}\\,\\,}\\|p;$\\par",
    ),
    (
        b"struct s v={.int=1};",
        b"\\Y\\B\\&{struct} \\&{s} \\|v${}\\K\\{{.}\\&{int}\\K\\T{1}\\};$\\par",
    ),
];

/// The same for the rows from 98 on.
pub(crate) const PARTS_FROM_98: [Row; 36] = [
    (
        b"a=(foo *)b;",
        b"\\Y\\B$\\|a\\K{}$(\\\\{foo} ${}{*}){}$ \\|b;\\par",
    ),
    (
        b"a=(foo **)b;",
        b"\\Y\\B$\\|a\\K{}$(\\\\{foo} ${}{{*}{*}}){}$ \\|b;\\par",
    ),
    (
        b"each(a) if(b)c;",
        b"\\Y\\B\\\\{each}(\\|a)\\6\n\\&{if} (\\|b)\\1\\5\\|c;\\2\\par",
    ),
    (
        b"enum {A,};",
        b"\\Y\\B\\&{enum} ${}\\{\\1{}$\\6
${}\\|A,\\2{}$\\6
${}\\};$\\par",
    ),
    (
        b"typedef int heap; f() { return heap->n; }",
        b"\\Y\\B\\&{typedef} \\&{int} \\&{heap};\\7
\\1\\1\\|f(\\,)\\2\\2\\6
${}\\{\\1{}$\\6
\\&{return} \\&{heap}${}\\MG\\|n;{}$\\6
\\4${}\\}\\2{}$\\par",
    ),
    (
        b"int a[]={};",
        b"\\Y\\B\\&{int} \\|a[\\,]${}\\K\\{\\,\\};$\\par",
    ),
    (
        b"f(int a,...);",
        b"\\Y\\B\\|f(\\&{int} \\|a${},\\39\\,\\ldots\\,);$\\par",
    ),
    (b"a=@t$b$@>;", b"\\Y\\B$\\|a\\K\\hbox{$b$};$\\par"),
    (b"[[a]] int b;", b"\\Y\\B[[\\|a]] \\&{int} \\|b;\\par"),
    (
        b"alignas(8) int b;",
        b"\\Y\\B\\&{alignas}(\\T{8}) \\&{int} \\|b;\\par",
    ),
    (
        b"typedef int __attribute__((a)) b;",
        b"\\Y\\B\\&{typedef} \\&{int} \\&{\\_\\_attribute\\_\\_}((\\|a)) \\&{b};\\par",
    ),
    (
        b"[[likely]] b();",
        b"\\Y\\B[[\\\\{likely}]] \\|b(\\,);\\par",
    ),
    (b"typeof(a) b;", b"\\Y\\B\\&{typeof} (\\|a) \\|b;\\par"),
    (
        b"asm volatile(\"a\");",
        b"\\Y\\B\\&{asm} \\&{volatile} (\\.{\"a\"});\\par",
    ),
    (
        b"asm(\"a\"::: \"m\");",
        b"\\Y\\B\\&{asm} ${}(\\.{\"a\"}\\DC:\\.{\"m\"});$\\par",
    ),
    (
        b"enum e:int{A};",
        b"\\Y\\B\\&{enum} \\&{e} : \\&{int} ${}\\{\\1{}$\\6
\\|A\\2\\6
${}\\};$\\par",
    ),
    (
        b"{a;} | {b;}",
        b"\\Y\\B${}\\{\\1{}$\\6
\\|a;\\6
\\4${}\\}\\2{}$\\6
${}\\OR{}$\\6
${}\\{\\1{}$\\6
\\|b;\\6
\\4${}\\}\\2{}$\\par",
    ),
    (
        b"asm(\"\":\"=m\"(x)::);",
        b"\\Y\\B\\&{asm} (\\.{\"\"}: ${}\\.{\"=m\"}(\\|x)\\DC);$\\par",
    ),
    (
        b"
#include <x>
int f(){a;}",
        b"\\Y\\B\\8\\#\\&{include} \\.{<x>}\\7
\\1\\1\\&{int} \\|f(\\,)\\2\\2\\6
${}\\{\\1{}$\\6
\\|a;\\6
\\4${}\\}\\2{}$\\par",
    ),
    (
        b"
#pragma a for
b;",
        b"\\Y\\B\\8\\#\\&{pragma} \\|a\\5\\&{for}\\6\n\\|b;\\par",
    ),
    (
        b"main(a) int a; {b;}",
        b"\\Y\\B\\1\\1\\\\{main}(\\|a)\\6
\\&{int} \\|a;\\2\\2\\6
${}\\{\\1{}$\\6
\\|b;\\6
\\4${}\\}\\2{}$\\par",
    ),
    (
        b"int f(a) int a; {b;}",
        b"\\Y\\B\\1\\1\\&{int} \\|f(\\|a)\\6
\\&{int} \\|a;\\2\\2\\6
${}\\{\\1{}$\\6
\\|b;\\6
\\4${}\\}\\2{}$\\par",
    ),
    (
        b"API int f(int);",
        b"\\Y\\B\\.{API} \\&{int} \\|f(\\&{int});\\par",
    ),
    (
        b"int f(UNUSED int a);",
        b"\\Y\\B\\&{int} \\|f(\\.{UNUSED} \\&{int} \\|a);\\par",
    ),
    (
        b"static A(1) int f(){a;}",
        b"\\Y\\B\\&{static} \\|A(\\T{1})\\6
\\1\\1\\&{int} \\|f(\\,)\\2\\2\\6
${}\\{\\1{}$\\6
\\|a;\\6
\\4${}\\}\\2{}$\\par",
    ),
    (
        b"
#define int long
a;",
        b"\\Y\\B\\8\\#\\&{define} \\&{int} \\&{long}\\6\n\\|a;\\par",
    ),
    (b"foo x;", b"\\Y\\B\\\\{foo} \\|x;\\par"),
    (
        b"
#define P , int a
b;",
        b"\\Y\\B\\8\\#\\&{define} \\|P\\5${},{}$ \\&{int} \\|a\\6\n\\|b;\\par",
    ),
    (
        b"}
#endif
a;",
        b"\\Y\\B$\\}{}$\\6
\\8\\#\\&{endif}\\6
\\|a;\\par",
    ),
    (b"a=NULL;", b"\\Y\\B$\\|a\\K\\NULL;$\\par"),
    (
        b"struct s v[]={{1},{}};",
        b"\\Y\\B\\&{struct} \\&{s} \\|v[\\,]${}\\K\\{\\{\\T{1}\\},\\39\\{\\,\\}\\};$\\par",
    ),
    (
        b"struct s v[]={{},{1}};",
        b"\\Y\\B\\&{struct} \\&{s} \\|v[\\,]${}\\K\\{\\{\\,\\},\\39\\{\\T{1}\\}\\};$\\par",
    ),
    (b"int a [[]];", b"\\Y\\B\\&{int} \\|a [[\\,]];\\par"),
    (b"a=b? :c;", b"\\Y\\B$\\|a\\K\\|b\\?:\\|c;$\\par"),
    (
        b"
#define L (
a;",
        b"\\Y\\B\\8\\#\\&{define} \\|L\\5(\\6\n\\|a;\\par",
    ),
    (
        b"void *v[]={&&a,&&b};",
        b"\\Y\\B\\&{void} ${}{*}\\|v[\\,]\\K\\{\\W\\|a,\\39\\W\\|b\\};$\\par",
    ),
];

/// The same for what more than one row does, and for tokens and words.
pub(crate) const PARTS_OF_MORE: [Row; 49] = [
    (
        b"case 1 ... 2: a;",
        b"\\Y\\B\\4\\&{case} \\T{1}${}\\,\\ldots\\,\\T{2}{}$:\\5\\|a;\\par",
    ),
    (b"a=b?:c;", b"\\Y\\B$\\|a\\K\\|b\\?:\\|c;$\\par"),
    (
        b"x=0b10'01+0x1.8p3+1'000u;",
        b"\\Y\\B$\\|x\\K\\T{\\\\10\\ 01}+\\T{\\^1.8p3}+\\T{1\\ 000\\$U};$\\par",
    ),
    (b"a=L\"b\";", b"\\Y\\B$\\|a\\K\\.{L\"b\"};$\\par"),
    (
        b"a=\"0123456789012345678901234\";",
        b"\\Y\\B$\\|a\\K\\.{\"0123456789012345678}\\)\\.{901234\"};$\\par",
    ),
    (b"[[a]] *p=1;", b"\\Y\\B[[\\|a]] ${}{*}\\|p\\K\\T{1};$\\par"),
    (
        b"[[a]] const int b;",
        b"\\Y\\B[[\\|a]] \\&{const} \\&{int} \\|b;\\par",
    ),
    (
        b"@t\\4@>const int b;",
        b"\\Y\\B\\hbox{\\4}\\&{const} \\&{int} \\|b;\\par",
    ),
    (b"a:@+|b;", b"\\Y\\B\\|a:\\5${}\\MRL{\\OR}\\|b;$\\par"),
    (
        b"bool b=true; uint8_t c;",
        b"\\Y\\B\\&{bool} \\|b${}\\K\\\\{true};{}$\\6
\\&{uint8\\_t} \\|c;\\par",
    ),
    (b"a:b;", b"\\Y\\B\\4\\|a:\\5\\|b;\\par"),
    (
        b"if (x) FOO(y) else BAR(z);",
        b"\\Y\\B\\&{if} (\\|x)\\1\\5\\.{FOO}(\\|y)\\2\\6
\\&{else}\\1\\5\\.{BAR}(\\|z);\\2\\par",
    ),
    (
        b"@t\\4@>if(a)b;",
        b"\\Y\\B\\hbox{\\4}\\6\n\\&{if} (\\|a)\\1\\5\\|b;\\2\\par",
    ),
    (b"xstr(alignas);", b"\\Y\\B\\\\{xstr}(\\&{alignas});\\par"),
    (
        b"struct s{int a;",
        b"\\Y\\B\\&{struct} \\&{s} ${}\\{\\1{}$\\6\n\\&{int} \\|a;\\2\\par",
    ),
    (b"return &&a;", b"\\Y\\B\\&{return} ${}\\W\\|a;$\\par"),
    (b"p=&&a;", b"\\Y\\B$\\|p\\MRL{{\\K}{\\W}}\\|a;$\\par"),
    (
        b"void f(int a[_Atomic],int[static 3]);",
        b"\\Y\\B\\&{void} \\|f(\\&{int} \\|a[\\&{\\_Atomic}]${},\\39{}$\\&{int} [\\&{static} 
\\T{3}]);\\par",
    ),
    (
        b"struct [[]] s a;",
        b"\\Y\\B\\&{struct} [[\\,]] \\&{s} \\|a;\\par",
    ),
    (
        b"struct s v[]={{1},{/* end */}};",
        b"\\Y\\B\\&{struct} \\&{s} \\|v[\\,]${}\\K\\{\\{\\T{1}\\},\\39\\{{}$\\C{ end }\\6
\\,${}\\}\\};$\\par",
    ),
    (
        b"typedef int heap; a=b?heap->n:heap->m;",
        b"\\Y\\B\\&{typedef} \\&{int} \\&{heap};\\7
${}\\|a\\K\\|b\\?\\&{heap}\\MG\\|n:\\&{heap}\\MG\\|m;$\\par",
    ),
    (
        b"f(a, int b c, <);",
        b"\\Y\\B$\\|f(\\|a,\\39{}$\\&{int} \\|b \\|c${},\\39<);$\\par",
    ),
    (
        b"f(\"a\" B \"c\");",
        b"\\Y\\B\\|f(\\.{\"a\"} \\|B \\.{\"c\"});\\par",
    ),
    (
        b"struct foo{int foo;}; struct foo *foo; foo->foo=1;",
        b"\\Y\\B\\&{struct} \\&{foo} ${}\\{\\1{}$\\6
\\&{int} \\\\{foo};\\2\\6
${}\\};{}$\\6
\\&{struct} \\&{foo} ${}{*}\\\\{foo};{}$\\7
${}\\\\{foo}\\MG\\\\{foo}\\K\\T{1};$\\par",
    ),
    (
        b"
#define E(line) error(line)
a;",
        b"\\Y\\B\\8\\#\\&{define} \\|E(\\\\{line})\\5\\\\{error}(\\\\{line})\\6
\\|a;\\par",
    ),
    (
        b"
#if !defined inline && x
a;
#endif",
        b"\\Y\\B\\8\\#\\&{if} ${}\\R{}$\\&{defined} ${}\\&{inline}\\W\\|x{}$\\6
\\|a;\\6
\\8\\#\\&{endif}\\par",
    ),
    (
        b"
#define M(x) a=x; b=x;
c;",
        b"\\Y\\B\\8\\#\\&{define} \\|M(\\|x)\\5${}\\|a\\K\\|x;{}$\\6
${}\\|b\\K\\|x;{}$\\6
\\|c;\\par",
    ),
    (
        b"
#define M(x) if(x){a;}
c;",
        b"\\Y\\B\\8\\#\\&{define} \\|M(\\|x)\\6
\\&{if} (\\|x)\\5${}\\{\\1{}$\\6
\\|a;\\6
\\4${}\\}\\2{}$\\6
\\|c;\\par",
    ),
    (
        b"
#define T(t) typedef struct{t a;} t##_s
c;",
        b"\\Y\\B\\8\\#\\&{define} \\|T(\\|t)\\5\\&{typedef} \\&{struct} ${}\\{\\1{}$\\6
\\|t \\|a;\\2\\6
${}\\}{}$ \\|t${}{\\#}{\\#}\\\\{\\_s}{}$\\6
\\|c;\\par",
    ),
    (
        b"
#define B 2 /* c */
a;",
        b"\\Y\\B\\8\\#\\&{define} \\|B\\5\\T{2}\\C{ c }\\6\n\\|a;\\par",
    ),
    (
        b"
#define @[F(x)@] @[y=x@]
a;",
        b"\\Y\\B\\8\\#\\&{define} \\|F(\\|x)\\5${}\\|y\\K\\|x{}$\\6
\\|a;\\par",
    ),
    (
        b"
#ifdef A
extern \"C\" {
#endif
int f();",
        b"\\Y\\B\\8\\#\\&{ifdef} \\|A\\7
\\1\\1\\&{extern} \\.{\"C\"}\\2\\2\\6
${}\\{{}$\\6
\\8\\#\\&{endif}\\1\\6
\\&{int} \\|f(\\,);\\2\\par",
    ),
    (
        b"extern weak hidden void (*x)(void);",
        b"\\Y\\B\\&{extern} \\\\{weak} \\\\{hidden} \\&{void} ${}({*}\\|x)(\\&{void});$\\par",
    ),
    (
        b"asm volatile(\"a\":[b]\"=r\"(c):\"r\"(d):\"e\");",
        b"\\Y\\B\\&{asm} \\&{volatile} (\\.{\"a\"}:\\5[\\|b] \\.{\"=r\"}(\\|c):\\5\\.{\"r\"}(\\|d): 
\\.{\"e\"});\\par",
    ),
    (
        b"for(int i=0;;i++)a;",
        b"\\Y\\B\\&{for} (\\&{int} \\|i${}\\K\\T{0};{}$ ; ${}\\|i\\PP){}$\\1\\5\\|a;\\2\\par",
    ),
    (
        b"FOO static int f(){a;}",
        b"\\Y\\B\\.{FOO}\\6
\\1\\1\\&{static} \\&{int} \\|f(\\,)\\2\\2\\6
${}\\{\\1{}$\\6
\\|a;\\6
\\4${}\\}\\2{}$\\par",
    ),
    (
        b"OP(a,+,b);",
        b"\\Y\\B$\\.{OP}(\\|a,\\39{+},{}$ \\|b);\\par",
    ),
    (
        b"f(foo x,foo *y);",
        b"\\Y\\B\\|f(\\\\{foo} \\|x${},\\39\\\\{foo}*\\|y);$\\par",
    ),
    (b"a=(foo)x;", b"\\Y\\B$\\|a\\K(\\\\{foo}){}$ \\|x;\\par"),
    (b"x@t$_1$@>y;", b"\\Y\\B\\|x\\hbox{$_1$}\\|y;\\par"),
    (
        b"typedef struct foo foo; foo *a;",
        b"\\Y\\B\\&{typedef} \\&{struct} \\&{foo} \\&{foo};\\6
\\&{foo} ${}{*}\\|a;$\\par",
    ),
    (b"std::x;", b"\\Y\\B$\\\\{std}\\DC\\|x;$\\par"),
    (b"::x;", b"\\Y\\B$\\DC\\|x;$\\par"),
    (
        b"int f(int a,/* c */int b){c;}",
        b"\\Y\\B\\1\\1\\&{int} \\|f(\\&{int} \\|a${},\\39{}$\\C{ c }\\6
\\&{int} \\|b)\\2\\2\\6
${}\\{\\1{}$\\6
\\|c;\\6
\\4${}\\}\\2{}$\\par",
    ),
    (
        b"if ((int))b;",
        b"\\Y\\B\\&{if} ((\\&{int}))\\1\\5\\|b;\\2\\par",
    ),
    (
        b"while((int))b;",
        b"\\Y\\B\\&{while} ((\\&{int}))\\1\\5\\|b;\\2\\par",
    ),
    (
        b"
#define T int
a;",
        b"\\Y\\B\\8\\#\\&{define} \\|T\\5\\&{int}\\6\n\\|a;\\par",
    ),
    (b"int b [[a]];", b"\\Y\\B\\&{int} \\|b [[\\|a]];\\par"),
    (
        b"
#define F(x) {y;}
a;",
        b"\\Y\\B\\8\\#\\&{define} \\|F(\\|x)\\6
${}\\{\\1{}$\\6
\\|y;\\6
\\4${}\\}\\2{}$\\6
\\|a;\\par",
    ),
];
